// The bytes of a page that isn't made.
ghost use Rattle.std.specs.Prelude.{◌≡◌, replicate};

static ZEROS: [u8; 4096] = [0; 4096];

/// As many zeros as a page has bytes.
pub fn zeros() -> &'static [u8]
    ensures { result.now ≡ replicate 4096 0 }
{
    &ZEROS
}
