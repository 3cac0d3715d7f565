ghost use Rattle.std.specs.Prelude.{◌≡◌, ◌≤◌, length, slice_index};
ghost use Rattle.memchr.specs.Find.{IsFirst};

use memchr::memchr;

/// The first LF at or after `start`.
pub fn line_end(text: &[u8], start: usize) -> Option<usize>
    requires { start ≤ length text.now }
    ensures { IsFirst (λ at. slice_index text.now at ≡ 10) start (length text.now) result }
{
    match memchr(b'\n', &text[start..]) {
        Some(behind) => Some(start + behind),
        None => None,
    }
}
