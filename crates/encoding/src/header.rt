// The header of eight numbers that parts, messages and areas begin with.
ghost use Rattle.std.specs.Prelude.{◌≡◌, ◌≤◌, length};
ghost use Rattle.encoding.specs.Header.{eight_of};
ghost use Rattle.encoding.specs.Pieces.{splice};

use crate::bytes::write_u32;

pub fn write_eight(out: &mut [u8], numbers: [u32; 8])
    requires { 32 ≤ length out.old }
    ensures { out.new ≡ splice out.old 0 (eight_of numbers) }
{
    for i in 0..8 {
        write_u32(&mut *out, 4 * i, numbers[i]);
    }
}
