// Copying and comparing byte strings.
ghost use Rattle.std.specs.Prelude.{◌≡◌, length};
ghost use Rattle.std.specs.Str.{bytes_eq};

// Writes `bytes` over the whole of `out`. By a loop: between two buffers of a caller, `copy_from_slice` would have an
// archive for C need `memmove`.
pub(crate) fn copy(out: &mut [u8], bytes: &[u8])
    requires { length out.old ≡ length bytes.now }
    ensures { out.new ≡ bytes.now }
{
    for i in 0..bytes.len() {
        out[i] = bytes[i];
    }
}

// Whether two byte strings are equal. It reads both to the end, wherever they differ.
pub(crate) fn same(a: &[u8], b: &[u8]) -> bool
    requires { length a.now ≡ length b.now }
    ensures { result ≡ bytes_eq a.now b.now }
{
    let differences = a.iter().zip(b).fold(0, |all, (x, y)| all | (x ^ y));
    differences == 0
}
