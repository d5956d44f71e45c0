//! Names that were made to have one hash are numbered like any others.

use super::intern_all;
use crate::tests::holds;
use call_tree::FrameTable;
use std::alloc::AllocError;
use std::test::Fail;

/// Names of one hash in std's hasher of fixed seed: at each of six places of 16 bytes one of two blocks that leave it in the same state.
const NAMES: &[&str] = &[
    "W$OMr%!qIhzkm27+*iU./W)pTUDykv-z[X.)Hr*Smi:Bw1yW0Y1Ja>FPyj`+.c2hOLT)w^(:+Z0&-.>th~K4,P#@%2x&tSZX",
    "c-SVsU'`fevfp'w|*iU./W)pTUDykv-z[X.)Hr*Smi:Bw1yW0Y1Ja>FPyj`+.c2hOLT)w^(:+Z0&-.>th~K4,P#@%2x&tSZX",
    "W$OMr%!qIhzkm27+IH'vv5wV!(AGbFL([X.)Hr*Smi:Bw1yW0Y1Ja>FPyj`+.c2hOLT)w^(:+Z0&-.>th~K4,P#@%2x&tSZX",
    "c-SVsU'`fevfp'w|IH'vv5wV!(AGbFL([X.)Hr*Smi:Bw1yW0Y1Ja>FPyj`+.c2hOLT)w^(:+Z0&-.>th~K4,P#@%2x&tSZX",
    "W$OMr%!qIhzkm27+*iU./W)pTUDykv-z=zr|rTYz2dTzQhO|0Y1Ja>FPyj`+.c2hOLT)w^(:+Z0&-.>th~K4,P#@%2x&tSZX",
    "c-SVsU'`fevfp'w|*iU./W)pTUDykv-z=zr|rTYz2dTzQhO|0Y1Ja>FPyj`+.c2hOLT)w^(:+Z0&-.>th~K4,P#@%2x&tSZX",
    "W$OMr%!qIhzkm27+IH'vv5wV!(AGbFL(=zr|rTYz2dTzQhO|0Y1Ja>FPyj`+.c2hOLT)w^(:+Z0&-.>th~K4,P#@%2x&tSZX",
    "c-SVsU'`fevfp'w|IH'vv5wV!(AGbFL(=zr|rTYz2dTzQhO|0Y1Ja>FPyj`+.c2hOLT)w^(:+Z0&-.>th~K4,P#@%2x&tSZX",
    "W$OMr%!qIhzkm27+*iU./W)pTUDykv-z[X.)Hr*Smi:Bw1yW^*?=ti4gA6NZ+4n!OLT)w^(:+Z0&-.>th~K4,P#@%2x&tSZX",
    "c-SVsU'`fevfp'w|*iU./W)pTUDykv-z[X.)Hr*Smi:Bw1yW^*?=ti4gA6NZ+4n!OLT)w^(:+Z0&-.>th~K4,P#@%2x&tSZX",
    "W$OMr%!qIhzkm27+IH'vv5wV!(AGbFL([X.)Hr*Smi:Bw1yW^*?=ti4gA6NZ+4n!OLT)w^(:+Z0&-.>th~K4,P#@%2x&tSZX",
    "c-SVsU'`fevfp'w|IH'vv5wV!(AGbFL([X.)Hr*Smi:Bw1yW^*?=ti4gA6NZ+4n!OLT)w^(:+Z0&-.>th~K4,P#@%2x&tSZX",
    "W$OMr%!qIhzkm27+*iU./W)pTUDykv-z=zr|rTYz2dTzQhO|^*?=ti4gA6NZ+4n!OLT)w^(:+Z0&-.>th~K4,P#@%2x&tSZX",
    "c-SVsU'`fevfp'w|*iU./W)pTUDykv-z=zr|rTYz2dTzQhO|^*?=ti4gA6NZ+4n!OLT)w^(:+Z0&-.>th~K4,P#@%2x&tSZX",
    "W$OMr%!qIhzkm27+IH'vv5wV!(AGbFL(=zr|rTYz2dTzQhO|^*?=ti4gA6NZ+4n!OLT)w^(:+Z0&-.>th~K4,P#@%2x&tSZX",
    "c-SVsU'`fevfp'w|IH'vv5wV!(AGbFL(=zr|rTYz2dTzQhO|^*?=ti4gA6NZ+4n!OLT)w^(:+Z0&-.>th~K4,P#@%2x&tSZX",
    "W$OMr%!qIhzkm27+*iU./W)pTUDykv-z[X.)Hr*Smi:Bw1yW0Y1Ja>FPyj`+.c2hRwIU*uQ(eB]L`4?Nh~K4,P#@%2x&tSZX",
    "c-SVsU'`fevfp'w|*iU./W)pTUDykv-z[X.)Hr*Smi:Bw1yW0Y1Ja>FPyj`+.c2hRwIU*uQ(eB]L`4?Nh~K4,P#@%2x&tSZX",
    "W$OMr%!qIhzkm27+IH'vv5wV!(AGbFL([X.)Hr*Smi:Bw1yW0Y1Ja>FPyj`+.c2hRwIU*uQ(eB]L`4?Nh~K4,P#@%2x&tSZX",
    "c-SVsU'`fevfp'w|IH'vv5wV!(AGbFL([X.)Hr*Smi:Bw1yW0Y1Ja>FPyj`+.c2hRwIU*uQ(eB]L`4?Nh~K4,P#@%2x&tSZX",
    "W$OMr%!qIhzkm27+*iU./W)pTUDykv-z=zr|rTYz2dTzQhO|0Y1Ja>FPyj`+.c2hRwIU*uQ(eB]L`4?Nh~K4,P#@%2x&tSZX",
    "c-SVsU'`fevfp'w|*iU./W)pTUDykv-z=zr|rTYz2dTzQhO|0Y1Ja>FPyj`+.c2hRwIU*uQ(eB]L`4?Nh~K4,P#@%2x&tSZX",
    "W$OMr%!qIhzkm27+IH'vv5wV!(AGbFL(=zr|rTYz2dTzQhO|0Y1Ja>FPyj`+.c2hRwIU*uQ(eB]L`4?Nh~K4,P#@%2x&tSZX",
    "c-SVsU'`fevfp'w|IH'vv5wV!(AGbFL(=zr|rTYz2dTzQhO|0Y1Ja>FPyj`+.c2hRwIU*uQ(eB]L`4?Nh~K4,P#@%2x&tSZX",
    "W$OMr%!qIhzkm27+*iU./W)pTUDykv-z[X.)Hr*Smi:Bw1yW^*?=ti4gA6NZ+4n!RwIU*uQ(eB]L`4?Nh~K4,P#@%2x&tSZX",
    "c-SVsU'`fevfp'w|*iU./W)pTUDykv-z[X.)Hr*Smi:Bw1yW^*?=ti4gA6NZ+4n!RwIU*uQ(eB]L`4?Nh~K4,P#@%2x&tSZX",
    "W$OMr%!qIhzkm27+IH'vv5wV!(AGbFL([X.)Hr*Smi:Bw1yW^*?=ti4gA6NZ+4n!RwIU*uQ(eB]L`4?Nh~K4,P#@%2x&tSZX",
    "c-SVsU'`fevfp'w|IH'vv5wV!(AGbFL([X.)Hr*Smi:Bw1yW^*?=ti4gA6NZ+4n!RwIU*uQ(eB]L`4?Nh~K4,P#@%2x&tSZX",
    "W$OMr%!qIhzkm27+*iU./W)pTUDykv-z=zr|rTYz2dTzQhO|^*?=ti4gA6NZ+4n!RwIU*uQ(eB]L`4?Nh~K4,P#@%2x&tSZX",
    "c-SVsU'`fevfp'w|*iU./W)pTUDykv-z=zr|rTYz2dTzQhO|^*?=ti4gA6NZ+4n!RwIU*uQ(eB]L`4?Nh~K4,P#@%2x&tSZX",
    "W$OMr%!qIhzkm27+IH'vv5wV!(AGbFL(=zr|rTYz2dTzQhO|^*?=ti4gA6NZ+4n!RwIU*uQ(eB]L`4?Nh~K4,P#@%2x&tSZX",
    "c-SVsU'`fevfp'w|IH'vv5wV!(AGbFL(=zr|rTYz2dTzQhO|^*?=ti4gA6NZ+4n!RwIU*uQ(eB]L`4?Nh~K4,P#@%2x&tSZX",
    "W$OMr%!qIhzkm27+*iU./W)pTUDykv-z[X.)Hr*Smi:Bw1yW0Y1Ja>FPyj`+.c2hOLT)w^(:+Z0&-.>tX!Ec-j=s-'/B#%Hy",
    "c-SVsU'`fevfp'w|*iU./W)pTUDykv-z[X.)Hr*Smi:Bw1yW0Y1Ja>FPyj`+.c2hOLT)w^(:+Z0&-.>tX!Ec-j=s-'/B#%Hy",
    "W$OMr%!qIhzkm27+IH'vv5wV!(AGbFL([X.)Hr*Smi:Bw1yW0Y1Ja>FPyj`+.c2hOLT)w^(:+Z0&-.>tX!Ec-j=s-'/B#%Hy",
    "c-SVsU'`fevfp'w|IH'vv5wV!(AGbFL([X.)Hr*Smi:Bw1yW0Y1Ja>FPyj`+.c2hOLT)w^(:+Z0&-.>tX!Ec-j=s-'/B#%Hy",
    "W$OMr%!qIhzkm27+*iU./W)pTUDykv-z=zr|rTYz2dTzQhO|0Y1Ja>FPyj`+.c2hOLT)w^(:+Z0&-.>tX!Ec-j=s-'/B#%Hy",
    "c-SVsU'`fevfp'w|*iU./W)pTUDykv-z=zr|rTYz2dTzQhO|0Y1Ja>FPyj`+.c2hOLT)w^(:+Z0&-.>tX!Ec-j=s-'/B#%Hy",
    "W$OMr%!qIhzkm27+IH'vv5wV!(AGbFL(=zr|rTYz2dTzQhO|0Y1Ja>FPyj`+.c2hOLT)w^(:+Z0&-.>tX!Ec-j=s-'/B#%Hy",
    "c-SVsU'`fevfp'w|IH'vv5wV!(AGbFL(=zr|rTYz2dTzQhO|0Y1Ja>FPyj`+.c2hOLT)w^(:+Z0&-.>tX!Ec-j=s-'/B#%Hy",
];

/// Interns names twice, which get the same numbers.
fn intern_twice(table: &mut FrameTable, names: &[&str]) -> Result<bool, AllocError> {
    Ok(intern_all(table, names)? && intern_all(table, names)?)
}

/// More of them than a walk has steps: each keeps the number that it got.
#[test]
fn names_of_one_hash_keep_their_numbers(rt: HostRuntime) -> Result<(), Fail> {
    holds(&rt, intern_twice(&mut FrameTable::new(rt.alloc()), NAMES))
}
