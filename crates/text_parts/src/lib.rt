// Parts of bytes that a caller lends: the first of them, and those behind. Each call answers for every number.
#![tactic(auto)]

ghost use Rattle.std.specs.Prelude.{◌≡◌, take, drop};

// The first bytes, or all where there are fewer.
// A count beside the bytes: this is the cut itself.
pub fn first(bytes: &[u8], count: usize) -> &[u8]
    ensures { result.now ≡ take count bytes.now }
{
    &bytes[..count.min(bytes.len())]
}

// The bytes from a place on, or none where there are no more.
pub fn behind(bytes: &[u8], from: usize) -> &[u8]
    ensures { result.now ≡ drop from bytes.now }
{
    &bytes[from.min(bytes.len())..]
}
