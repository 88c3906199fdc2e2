// A record of an input, read: payload length (4 bytes), kind (2 bytes), payload, little-endian.
//
// The contracts cite `specs/Records.antt`.
#![tactic(auto)]

ghost use Rattle.std.specs.Prelude.{◌≡◌, ◌<◌, ◌≤◌};
ghost use Rattle.record_format.specs.Records.{header_of, HeaderWithin, kind_row, needed_in, cut_of, payload_of};

use ground_refusals::Refusal;

// What stands where a header was due. Three cases: an Option in a Result names neither the end nor the cut.
#[derive(Clone, Copy)]
pub enum Header {
    Record { length: usize, kind: usize },
    Cut,
    End,
}

// Of an image: the size of its buffer, and where it starts.
#[derive(Clone, Copy)]
pub struct Image {
    pub size: usize,
    pub start: usize,
}

// What the bytes that the input had for a header are: at most six are looked at.
#[tactic(auto, unfolding(crate::specs::Records::length_in, crate::specs::Records::kind_in))]
pub fn read_header(bytes: &[u8]) -> Header
    ensures { (result ≡ header_of bytes.now) × HeaderWithin result }
{
    if bytes.is_empty() {
        return Header::End;
    }
    if bytes.len() < 6 {
        return Header::Cut;
    }
    let length = u32::from_le_bytes([bytes[0], bytes[1], bytes[2], bytes[3]]) as usize;
    let kind = usize::from(u16::from_le_bytes([bytes[4], bytes[5]]));
    Header::Record { length, kind }
}

// The row of a kind, which is any number of two bytes, in the table of kinds: how many bytes of its payload a record can need, where it is known.
pub fn kind_row(kind: usize) -> Option<usize>
    ensures { (result ≡ kind_row kind) × (needed_in kind ≤ 0x8005) }
{
    match kind {
        1 => Some(0x8005),
        _ => None,
    }
}

// Why a record whose payload is cut is refused.
pub fn read_cut(kind: usize) -> Refusal
    ensures { result ≡ cut_of kind }
{
    match kind_row(kind) {
        Some(_) => Refusal::CutOrShort,
        None => Refusal::UnknownKind,
    }
}

// What a whole payload of this kind is, which is any number, as in kind_row. Its start is enough: what stands behind size and start is not looked at.
pub fn read_payload(kind: usize, payload: &[u8]) -> Result<Image, Refusal>
    ensures { result ≡ payload_of kind payload.now }
{
    if kind != 1 {
        return Err(Refusal::UnknownKind);
    }
    if payload.len() < 4 {
        return Err(Refusal::CutOrShort);
    }
    Ok(Image {
        size: usize::from(u16::from_le_bytes([payload[0], payload[1]])),
        start: usize::from(u16::from_le_bytes([payload[2], payload[3]])),
    })
}
