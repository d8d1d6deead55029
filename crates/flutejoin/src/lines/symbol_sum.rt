//! A sum of a symbol's bytes, by which two sides compare them before either sends them.
ghost use Rattle.std.specs.Prelude.{◌≡◌, ◌+◌, ◌≤◌, ◌++◌, length};
ghost use Rattle.hex.specs.Hex.{encode_lower};
ghost use Rattle.flutejoin.specs.SymbolSums.{symbol_sum};

use crate::lines::text::Text;
use sha2::{Digest, Sha256};

/// How many bytes of a digest are the sum.
const SUM_BYTES: usize = 8;

/// Appends the 16 digits of the first 8 bytes of the SHA-256 of a symbol's bytes (FIPS 180-4).
pub fn push_sum(text: &mut Text, bytes: &[u8])
    requires { length text.old + 16 ≤ 512 }
    ensures text { text.new ≡ text.old ++ encode_lower (symbol_sum bytes.now) }
    ensures len { length text.new ≡ length text.old + 16 }
{
    let digest = Sha256::digest(bytes);
    let mut digits = [0; 2 * SUM_BYTES];
    hex::encode_to_slice(&digest[..SUM_BYTES], &mut digits).unwrap();
    text.push_bytes(&digits);
}
