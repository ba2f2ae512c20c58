//! Texts in UTF-16 with the low octet of each unit first (RFC 2781).

ghost use Rattle.std.specs.Prelude.{◌≡◌, ℕ, List, Some};
ghost use Rattle.std.specs.Str.{IsUtf8};
ghost use Rattle.ndr_core.specs.Laws.{IsBytes};
ghost use Rattle.krb_names.specs.Utf16.{utf16le_text, utf16le_reading};

/// Texts of UTF-8 and the octets of their UTF-16LE stand for one another.
pub fn utf16_keeps_laws()
    // What is read is a text, and is written as the octets that it was read from.
    ensures found { (octets text : List ℕ) → IsBytes octets → utf16le_reading octets ≡ Some text → IsUtf8 text × (utf16le_text text ≡ octets) }
    // What is written is read again.
    ensures value { (text : List ℕ) → IsUtf8 text → utf16le_reading (utf16le_text text) ≡ Some text }
{}
