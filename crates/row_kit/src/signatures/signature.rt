//! The signature that a native's text for readers begins with.

ghost use Rattle.row_kit.specs.Below.{IfSome, IfNone, option_map};
ghost use Rattle.std.specs.Prelude.{◌≡◌};
ghost use Rattle.row_kit.specs.OfSignatures.Signature.{IsSignature, HasNoSignature, IsSignatureOf, HasNoSignatureOf, opening, signature_of, StandsAt};

use class_table::last_part;

// What ends a signature, beginning with the bracket that closes it.
const ENDING: &str = ")\n--\n\n";

/// The signature of a native of that name, if its text for readers begins with one: the part of the name after its last
/// dot must begin the text, and what follows it, from an opening bracket to the first closing one that ends a line of
/// its own, is the signature.
pub fn get_text_signature_from_internal_doc<'a>(name: &str, doc: &'a str) -> Option<&'a str>
    ensures found { IfSome result (λ x. IsSignatureOf name.now doc.now x.now) }
    ensures none { IfNone result (HasNoSignatureOf name.now doc.now) }
    ensures equals { option_map (λ x. x.now) result ≡ signature_of name.now doc.now }
{
    signature(last_part(name), doc)
}

// The signature that follows a name at the head of a text.
fn signature<'a>(name: &str, doc: &'a str) -> Option<&'a str>
    ensures found { IfSome result (λ x. IsSignature name.now doc.now x.now) }
    ensures none { IfNone result (HasNoSignature name.now doc.now) }
{
    let rest = doc.strip_prefix(name)?;
    if !rest.starts_with("(") {
        return None;
    }
    let close = rest.find(ENDING)?;
    Some(&rest[..close + 1])
}
