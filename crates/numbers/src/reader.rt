// A reader over the bytes of an input.
ghost use Rattle.std.specs.Prelude.{◌+◌, ◌^◌, ◌<◌, length};

pub mod reading;

// The bytes that are left, and the offset of the first of them in the input.
#[derive(Clone, Copy)]
pub struct Reader<'a> {
    pub(crate) rest: &'a [u8],
    pub(crate) place: usize,
    ghost fits: { place + length rest.now < 2 ^ 64 },
}
