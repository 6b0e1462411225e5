//! The promises about every list of calls on a fresh bench, each demanded by the contract of a function.
#![tactic(auto)]

ghost use Rattle.laws.specs.Promises.{Agreement, CrashPromise, LedgerKnows, SizePromise};
ghost use Rattle.laws.specs.Standing.{StandingPromise};
ghost use Rattle.laws.specs.Variants.{VariantsFail};

/// Where a list of calls ends in a crash, each place of a standing file holds the byte last fixed there, or one that a later
/// recorded write put there; or nothing or a zero, but only if a resize was recorded since, or no byte was fixed there.
pub fn crash_promise()
    ensures { CrashPromise }
{}

/// The ledger, which sees calls, answers, words and the files after a crash, knows the bench's rates, sizes and store.
pub fn ledger_knows()
    ensures { LedgerKnows }
{}

/// Exactly those files stand that an open found or made and no removal took since, and exactly those handles are held that an
/// open gave and no close or restart ended since.
pub fn standing_promise()
    ensures { StandingPromise }
{}

/// While a held handle's file stands, its size is the count of its live bytes without the header, and a read with no injected
/// fault gives its bytes exactly when offset plus length is at most that size.
pub fn size_promise()
    ensures { SizePromise }
{}

/// Two runs of one list of calls agree where their sources begin with the same words, as many as are taken: the same answers,
/// area bytes, words taken and files.
pub fn agreement()
    ensures { Agreement }
{}

/// The promises bite: two wrong logs leave after a crash what the crash promise rules out, and a third another file than the
/// right one.
pub fn variants_fail()
    ensures { VariantsFail }
{}
