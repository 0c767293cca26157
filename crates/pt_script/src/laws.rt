//! The laws of all scripts. Each function has an empty body: its contract is the law.

ghost use Rattle.pt_script.specs.Laws.{AnswersHaveLines, BeginningsOfAll, EachText, OneText};

/// Each answer of the history that the first lines lead to is written. The line that made its call
/// is noted, even after all lines, and it is a line of the client that is answered.
pub fn law_answers_have_lines()
    ensures { AnswersHaveLines }
{}

/// A list of lines, and a choice of the lines at which memory is lacking, determine one text.
/// Whatever may be written for lines is their text for some such choice.
pub fn law_one_text()
    ensures one { OneText }
    ensures each { EachText }
{}

/// What begins a text of the first lines also begins a text of all lines.
pub fn law_beginnings()
    ensures { BeginningsOfAll }
{}
