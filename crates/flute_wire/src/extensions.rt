//! The extensions of the LCT header (RFC 5651, section 5.2).

ghost use Rattle.std.specs.Prelude.{◌≡◌, ◌≢◌, ◌<◌, ◌++◌};
ghost use Rattle.std.specs.Prelude.{[], ◌∷◌, ℕ, List, length, IfSome, IfNone, IfOk, IfErr};
ghost use Rattle.std.specs.Prelude.{OnErr};
ghost use Rattle.std.specs.Option.{option_copied, option_to_list};
ghost use Rattle.flute_wire.specs.Extensions.{HeaderExtension, IsExtension};
ghost use Rattle.flute_wire.specs.Extensions.{extension_bytes, bodies};
ghost use Rattle.flute_wire.specs.Walk.{extension_of, Finds, Occurs, RefusesArea};

use crate::refusal::Refusal;

/// The type of the extension with transmission information (RFC 5775, section 4.2).
pub const EXT_FTI: u8 = 64;

/// The type of the extension with the FDT Instance ID (RFC 6726, section 3.4.1).
pub const EXT_FDT: u8 = 192;

/// The type of the extension with the content encoding of an FDT Instance
/// (RFC 6726, section 3.4.3).
const EXT_CENC: u8 = 193;

/// One extension: its type HET and the bytes after that, the length HEL included if there is one.
#[derive(Clone, Copy)]
pub struct Extension<'a> {
    het: u8,
    body: &'a [u8],
}

/// The extension at the front, and the bytes after it. None if no extension is there: it has no
/// words, or more than there are.
fn split_extension(bytes: &[u8]) -> Option<(Extension<'_>, &[u8])>
    ensures whole { IfSome result (λ s. IsExtension (extension_of s.0)) }
    ensures parts { IfSome result (λ s. bytes.now ≡ extension_bytes (extension_of s.0) ++ s.1.now) }
    ensures none { IfNone result
        ((e : HeaderExtension) (rest : List ℕ) → IsExtension e
        → bytes.now ≢ extension_bytes e ++ rest) }
{
    let het = *bytes.first()?;
    let words = if het < 128 { *bytes.get(1)? } else { 1 };
    let len = 4 * usize::from(words);
    if words == 0 || bytes.len() < len {
        return None;
    }
    let (extension, rest) = bytes.split_at(len);
    let body = &extension[1..];
    Some((Extension { het, body }, rest))
}

/// How often an extension of one type is in a header, with its body if it is there once.
#[derive(Clone, Copy)]
pub enum Occurrence<'a> {
    Absent,
    Once(&'a [u8]),
    Repeated,
}

impl<'a> Occurrence<'a> {
    /// The occurrence with one more extension, if that has this type.
    fn with(self, het: u8, extension: Extension<'a>) -> Self
        ensures { (es : List HeaderExtension) → Occurs self.entry (bodies het es)
            → Occurs result (bodies het (es ++ extension_of extension.entry ∷ [])) }
    {
        if extension.het != het {
            return self;
        }
        match self {
            Occurrence::Absent => Occurrence::Once(extension.body),
            Occurrence::Once(_) | Occurrence::Repeated => Occurrence::Repeated,
        }
    }

    /// The body, if there is one.
    ///
    /// # Errors
    ///
    /// `Repeated` if there are more.
    fn body(self) -> Result<Option<&'a [u8]>, Refusal>
        ensures found { IfOk result (λ body. (bs : List (List ℕ)) → Occurs self.entry bs
            → bs ≡ option_to_list (option_copied body)) }
        ensures repeated { OnErr result
            ((bs : List (List ℕ)) → Occurs self.entry bs → 1 < length bs) }
        ensures refusal { IfErr result (λ r. r ≡ Refusal.Repeated) }
    {
        match self {
            Occurrence::Absent => Ok(None),
            Occurrence::Once(body) => Ok(Some(body)),
            Occurrence::Repeated => Err(Refusal::Repeated),
        }
    }
}

/// The bodies of the extensions that FLUTE reads: what follows their type.
/// All others are skipped.
#[derive(Clone, Copy)]
pub struct Known<'a> {
    pub fti: Option<&'a [u8]>,
    pub fdt: Option<&'a [u8]>,
    pub cenc: Option<&'a [u8]>,
}

impl<'a> Known<'a> {
    /// Reads the extensions that fill these bytes, one after another.
    ///
    /// # Errors
    ///
    /// `ExtensionLength` if the bytes are no extensions, wherever that is found, and else
    /// `Repeated` if one of the three is there twice.
    pub fn read(area: &'a [u8]) -> Result<Self, Refusal>
        ensures found { IfOk result (λ k. Finds area.now (option_copied k.fti) (option_copied k.fdt)
            (option_copied k.cenc)) }
        ensures refused { IfErr result (λ r. RefusesArea area.now r) }
    {
        let mut rest = area;
        let mut fti = Occurrence::Absent;
        let mut fdt = Occurrence::Absent;
        let mut cenc = Occurrence::Absent;
        while !rest.is_empty() {
            let Some((extension, after)) = split_extension(rest) else {
                return Err(Refusal::ExtensionLength);
            };
            fti = fti.with(EXT_FTI, extension);
            fdt = fdt.with(EXT_FDT, extension);
            cenc = cenc.with(EXT_CENC, extension);
            rest = after;
        }
        Ok(Known {
            fti: fti.body()?,
            fdt: fdt.body()?,
            cenc: cenc.body()?,
        })
    }
}
