//! A few bytes by the eight at each end of them.

ghost use Rattle.std.specs.Prelude.{◌≡◌, IfSome, length};
ghost use Rattle.mm_csv.specs.Ends.{AreEndsOf};

/// The first eight of eight to sixteen bytes, and the last eight, which may overlap them. Most texts have so many, and each end is
/// one word of the machine.
#[inline]
pub fn ends_of(bytes: &[u8]) -> Option<(&[u8; 8], &[u8; 8])>
    ensures { IfSome result (λ ends. AreEndsOf bytes.now ends.0.now ends.1.now) }
{
    if bytes.len() > 16 {
        return None;
    }
    let first = bytes.first_chunk()?;
    let last = bytes.last_chunk()?;
    Some((first, last))
}

/// Copies bytes.
#[inline]
pub fn copy_bytes(to: &mut [u8], from: &[u8])
    requires { length to.old ≡ length from.now }
    ensures { to.new ≡ from.now }
{
    let Some((first, last)) = ends_of(from) else {
        to.copy_from_slice(from);
        return;
    };
    to[..8].copy_from_slice(first);
    let behind = to.len() - 8;
    to[behind..].copy_from_slice(last);
}
