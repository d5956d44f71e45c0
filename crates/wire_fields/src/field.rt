//! One field at the front of some bytes (protobuf encoding guide, "Message Structure").

/// What a field holds, by its wire type.
#[derive(Clone, Copy, Debug, PartialEq, Eq)]
pub enum FieldValue<'a> {
    /// Wire type 0.
    Varint(u64),
    /// Wire type 1: eight bytes, the lowest first.
    Eight([u8; 8]),
    /// Wire type 2: the bytes behind the length, borrowed from the input.
    Bytes(&'a [u8]),
    /// Wire type 5: four bytes, the lowest first.
    Four([u8; 4]),
}

/// A field of a message.
#[derive(Clone, Copy, Debug, PartialEq, Eq)]
pub struct Field<'a> {
    /// From 1 to 536,870,911.
    pub number: u32,
    /// The offset of the tag's first byte, from the start of the bytes that are read.
    pub at: usize,
    pub value: FieldValue<'a>,
}
