// How an instruction's bytes are read: One as the Rust that the decoder follows reads them, Two as the manual of the 8086 has it.
#[derive(Clone, Copy, Debug, PartialEq, Eq)]
pub enum Reading {
    One,
    Two,
}
