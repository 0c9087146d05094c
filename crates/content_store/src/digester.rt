//! Digests of 32 bytes.
ghost use Rattle.std.specs.Prelude.{◌≡◌, ℕ, List, IfOk, string_bytes};
ghost use Rattle.sha2.specs.Sha256.{sha256};
ghost use Rattle.hex.specs.Hex.{encode_lower};

use sha2::{Digest, Sha256};
use std::alloc::{AllocError, Global};

/// A function from bytes to 32 bytes.
pub trait Digester {
    // the digest of the bytes
    ghost digest_of: { List ℕ → List ℕ };

    /// The digest of the bytes. It takes no memory.
    fn digest(&self, bytes: &[u8]) -> [u8; 32]
        ensures { result ≡ digest_of bytes.now };
}

/// SHA-256 (FIPS 180-4).
#[derive(Clone, Copy, Debug, Default)]
pub struct Sha256Digester;

impl Digester for Sha256Digester {
    ghost digest_of = { sha256 };

    fn digest(&self, bytes: &[u8]) -> [u8; 32] {
        Sha256::digest(bytes)
    }
}

/// The digest of the bytes, as 64 lower-case hexadecimal digits.
///
/// # Errors
/// `AllocError` if the text has no memory.
pub fn digest_text<D: Digester>(
    alloc: Global,
    digester: &D,
    bytes: &[u8],
) -> Result<String, AllocError>
    ensures { IfOk result (λ text. string_bytes text ≡ encode_lower (D.digest_of bytes.now)) }
{
    let digest = digester.digest(bytes);
    hex::encode(alloc, digest.as_slice())
}

/// The digest of the bytes, as 64 lower-case hexadecimal digits in ASCII. It takes no memory.
pub(crate) fn digest_digits<D: Digester>(digester: &D, bytes: &[u8]) -> [u8; 64]
    ensures { result ≡ encode_lower (D.digest_of bytes.now) }
{
    let digest = digester.digest(bytes);
    let mut digits = [0; 64];
    let _ = hex::encode_to_slice(digest, &mut digits);
    digits
}
