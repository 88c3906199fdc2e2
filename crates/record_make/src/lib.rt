// A record of kind 1, made: payload length (4 bytes), kind (2 bytes), size, start and the image, little-endian.
//
// The contracts cite `specs/Making.antt`.
#![tactic(auto)]

ghost use Rattle.std.specs.Prelude.{◌≡◌};
ghost use Rattle.text_put.specs.Text.{put_at, end_of};
ghost use Rattle.record_make.specs.Making.{record_of};

use text_put::Printed;

// Puts the record of an image at the front of a buffer.
// Its own clauses: they are its promise to other crates.
// Size and start are numbers: a record holds any.
pub fn put_record(out: &mut [u8], image: &[u8], size: u16, start: u16) -> usize
    ensures value { result ≡ end_of out.old 0 (record_of image.now size start) }
    ensures out_after { out.new ≡ put_at out.old 0 (record_of image.now size start) }
{
    let length = (image.len() + 4).to_le_bytes();
    (
        &length[..4],
        &1u16.to_le_bytes(),
        &size.to_le_bytes(),
        &start.to_le_bytes(),
        image,
    )
        .put(out, 0)
}
