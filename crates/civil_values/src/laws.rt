// Laws of canonical texts. Nothing runs here: the clauses are what counts.
ghost use Rattle.std.specs.Prelude.{◌≡◌, ◌↔◌, ℕ, ℤ, List, Some, FitsSigned, true};
ghost use Rattle.std.specs.Int.{w64};
ghost use Rattle.std.specs.Ordering.{nat_cmp, int_cmp};
ghost use Rattle.std.specs.Cmp.Lexicographic.{slice_cmp};
ghost use Rattle.jiff_core.specs.Calendar.{IsWithin};
ghost use Rattle.civil_values.specs.Times.{Moment, IsMoment, IsTime, IsTimeText};
ghost use Rattle.civil_values.specs.Numbers.{int_canonical, int_text};
ghost use Rattle.civil_values.specs.Texts.{is_cell_text, text_canonical};
ghost use Rattle.civil_values.specs.TimeReader.{moment_of, time_canonical};
ghost use Rattle.civil_values.specs.Truth.{bool_canonical};

/// An instant has one text and a text one instant, and the byte order of the texts is the order of the
/// instants.
pub fn time_texts_are_ordered()
    ensures one_text { (ms : ℤ) (a b : List ℕ) → IsTimeText ms a → IsTimeText ms b → a ≡ b }
    ensures one_instant { (m n : ℤ) (text : List ℕ) → IsTimeText m text → IsTimeText n text → m ≡ n }
    ensures order { (m n : ℤ) (a b : List ℕ) → IsTimeText m a → IsTimeText n b → slice_cmp nat_cmp a b ≡ int_cmp m n }
{}

/// The computed reading of a time is the grammar's: the moment that a text spells, and the text of its
/// instant.
pub fn time_canonical_is_exact()
    ensures moment { (given : ℤ) (text : List ℕ) (m : Moment) → (moment_of given text ≡ Some m) ↔ IsMoment given text m }
    ensures canonical { (given : ℤ) (text written : List ℕ) → IsWithin 840 given → (time_canonical given text ≡ Some written) ↔ ((ms : ℤ) × IsTime given text ms × IsTimeText ms written) }
{}

/// A number has one text, and two numbers of 64 bits have different texts.
pub fn int_texts_are_apart()
    ensures { (m n : ℤ) → FitsSigned w64 m → FitsSigned w64 n → int_text m ≡ int_text n → m ≡ n }
{}

/// Each canonical text is one character or more of XML 1.0.
pub fn canonical_texts_are_cell_texts()
    ensures time { (given : ℤ) (text written : List ℕ) → IsWithin 840 given → time_canonical given text ≡ Some written → is_cell_text written ≡ true }
    ensures int { (text written : List ℕ) → int_canonical text ≡ Some written → is_cell_text written ≡ true }
    ensures bool { (text written : List ℕ) → bool_canonical text ≡ Some written → is_cell_text written ≡ true }
    ensures text { (text written : List ℕ) → text_canonical text ≡ Some written → is_cell_text written ≡ true }
{}
