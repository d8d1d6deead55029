//! Laws of replicas, each the contract of a function that does nothing.
ghost use Rattle.std.specs.Prelude.{◌≡◌, ℕ, List};
ghost use Rattle.flute_parts.specs.Facts.{Same, SameMembers};
ghost use Rattle.flute_parts.specs.Information.{Information};
ghost use Rattle.flute_parts.specs.declared.fact.Fact.{Fact as Known};
ghost use Rattle.flute_parts.specs.declared.key.Key.{Key as Name};
ghost use Rattle.flute_store.specs.Objects.{Whole, object, gaps};
ghost use Rattle.flute_journal.specs.Journal.{Journal, IsJournal};
ghost use Rattle.flutejoin_replicas.specs.Held.{Held};
ghost use Rattle.flutejoin_replicas.specs.Steps.{held_by};
ghost use Rattle.flutejoin_replicas.specs.Known.{Fits, known_by};
ghost use Rattle.flutejoin_replicas.specs.Runs.{IsRunDone};
ghost use Rattle.flutejoin_replicas.specs.Laws.{GivenTheSame};
ghost use Rattle.flutejoin_replicas.specs.declared.steps.Step.{Step as Doing};

/// Replicas that were given the same facts have the same value at each address, whatever the order,
/// the repeats, the merges and the journals between. So they have one journal, and the same whole
/// objects with the same bytes and gaps.
pub fn the_same_facts_make_the_same()
    ensures same { (F G : List Known) → GivenTheSame F G → Same F G }
    ensures journal { (F G : List Known) (bs : List ℕ) → GivenTheSame F G
        → Journal bs F → Journal bs G }
    ensures one_journal { (F G : List Known) (bs cs : List ℕ) → GivenTheSame F G
        → Journal bs F → Journal cs G → bs ≡ cs }
    ensures whole { (F G : List Known) (key : Name) (info : Information) → GivenTheSame F G
        → Whole F key info → Whole G key info }
    ensures bytes { (F G : List Known) (key : Name) (info : Information) → GivenTheSame F G
        → object F key info ≡ object G key info }
    ensures gaps { (F G : List Known) (key : Name) (info : Information) → GivenTheSame F G
        → gaps F key info ≡ gaps G key info }
{}

/// Replicas of runs that succeeded are such replicas, if what they were given
/// has the same members.
pub fn runs_leave_what_was_given()
    ensures { (n m : ℕ) (steps others : List Doing) (origins further : ℕ → List Known)
        (r q : ℕ) (now then : Held)
        → IsRunDone n steps now → IsRunDone m others then → Fits steps origins
        → Fits others further
        → SameMembers (known_by n steps origins r) (known_by m others further q)
        → GivenTheSame (held_by now.contents r) (held_by then.contents q) }
{}

/// Replicas with equal journals hold the same.
pub fn equal_journals_mean_one_content()
    ensures { (F G : List Known) (bs : List ℕ) → IsJournal bs F → IsJournal bs G
        → Same F G }
{}
