//! Metadata of objects.
ghost use Rattle.std.specs.Prelude.{◌≡◌, ◌≤◌, length};
ghost use Rattle.kernel_rules.specs.Changes.{padded_data};

use base::Data;

/// 64 bytes, of which these, at most 64, are the first and the others 0.
pub fn padded_data(given: &Data) -> Data
    ensures value { result ≡ padded_data given.now }
    ensures few { length given.now ≤ 64 }
{
    let bytes = given.as_slice();
    let mut all = [0; 64];
    all[..bytes.len()].copy_from_slice(bytes);
    Data::from_slice(&all)
}
