//! What holds of every list that is shown.
ghost use Rattle.ranking.specs.Theorems.{StepsShow, AnswerStands, AnswerFixed, LinesCosted, CountsBounded};

/// The steps of a listing show the cheapest fitting offers; there is such a list and count, whatever the offers are, and no other;
/// each offer shown was costed; no more are shown than costed, and no more costed than fit.
pub fn rules_of_a_list()
    ensures shown { StepsShow }
    ensures stands { AnswerStands }
    ensures fixed { AnswerFixed }
    ensures costed { LinesCosted }
    ensures bounded { CountsBounded }
{}
