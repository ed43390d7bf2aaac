// Texts.
ghost use Rattle.std.specs.Prelude.{◌≡◌};
ghost use Rattle.civil_values.specs.Texts.{is_cell_text};
ghost use Rattle.vocabulary.specs.Texts.{is_xml_char};

use vocabulary::is_xml_char;

fn is_allowed(c: char) -> bool
    ensures { result ≡ is_xml_char c }
{
    is_xml_char(c)
}

/// Whether a text is one character or more, each a character of XML 1.0.
pub fn is_text(text: &str) -> bool
    ensures { result ≡ is_cell_text text.now }
{
    !text.is_empty() && text.chars().all(is_allowed)
}
