//! Callers and callees of functions of files in memory.

use super::answers::{Case, SILENT, end_so};
use std::test::Fail;

// `f` calls itself, and stands twice in a stack.
const CALLS: &[u8] = b"main;f;g 3\nmain;f;f 2\nmain 1\n";

const CALLERS: &str = "Showing 2 of 2 callers of f, total 5
own    own%  total   total%  name
  2  40.00%      5  100.00%  f
  0   0.00%      5  100.00%  main
  2  40.00%      2   40.00%  f
";

const CALLEES: &str = "{\"functions\":[{\"name\":\"f\",\"own\":2,\"total\":5},\
    {\"name\":\"g\",\"own\":3,\"total\":3}],\"total\":5,\"unit\":\"\",\"view\":\"callees\"}\n";

const NOBODY: &str = "Showing 0 of 0 callees of nobody, total 0
own   own%  total  total%  name
  0  0.00%      0   0.00%  nobody
";

const TABLES: &[Case<'static>] = &[
    Case {
        words: &["callers", "f", "a"],
        files: &[("a", CALLS)],
        out: CALLERS,
        ..SILENT
    },
    Case {
        words: &["callees", "--json", "-n", "1", "f"],
        input: CALLS,
        out: CALLEES,
        ..SILENT
    },
    Case {
        words: &["callees", "nobody"],
        input: CALLS,
        out: NOBODY,
        ..SILENT
    },
];

#[test]
fn calls_of_a_function(rt: HostRuntime) -> Result<(), Fail> {
    end_so(&rt, TABLES)
}
