//! Characters of XML 1.0.
ghost use Rattle.std.specs.Prelude.{◌≡◌};
ghost use Rattle.vocabulary.specs.Texts.{is_xml_char};

/// Whether a text of XML 1.0 may have this character (its section 2.2, `Char`).
pub fn is_xml_char(c: char) -> bool
    ensures { result ≡ is_xml_char c }
{
    matches!(c, '\t' | '\n' | '\r' | ' '..='\u{D7FF}' | '\u{E000}'..='\u{FFFD}' | '\u{10000}'..='\u{10FFFF}')
}
