//! What is proved of the book and of the first failure beside the calls' own clauses.
ghost use Rattle.m386_book.specs.Laws.{FrontsAreClean, HasOneVerdict, OthersKeepTheBook, SpeaksOfItsTask, TasklessKeepTheBook};

/// A run has one first failure and no other, and each front of a clean history is clean. The function does nothing; its
/// clauses are the laws.
pub fn first_failure_laws()
    ensures one { HasOneVerdict }
    ensures fronts { FrontsAreClean }
{}

/// A cycle that isn't the write of a claim, a link or a release changes nothing in the book, nor does a claim or a release
/// of no task; and a byte speaks of the task whose access byte it is. The function does nothing; its clauses are the laws.
pub fn book_laws()
    ensures others { OthersKeepTheBook }
    ensures taskless { TasklessKeepTheBook }
    ensures task { SpeaksOfItsTask }
{}
