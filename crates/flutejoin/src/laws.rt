//! Laws of journals, each the contract of a function that does nothing.
ghost use Rattle.std.specs.Prelude.{◌≡◌, ℕ, List, [], ◌∷◌, ◌++◌, flat_map, true};
ghost use Rattle.flute_parts.specs.Facts.{Below, Same};
ghost use Rattle.flute_parts.specs.declared.fact.Fact.{Fact as Known};
ghost use Rattle.flute_parts.specs.declared.key.Key.{Key};
ghost use Rattle.flute_journal.specs.Journal.{Journal, IsJournal, IsJournalWithin};
ghost use Rattle.flute_journal.specs.Stores.{IsJournalOf};
ghost use Rattle.flutejoin.specs.FillLists.{IsListing, asked, asks};
ghost use Rattle.flutejoin.specs.Laws.{AreLeft, HaveTheRest, IsAnswer};
ghost use Rattle.flutejoin.specs.Laws.{IsMinus, IsOfObjects, Leaves};
ghost use Rattle.flutejoin.specs.OwnGaps.{AreAlike, AreHeldOrAsked, AreWithin, AsksFor};
ghost use Rattle.flutejoin.specs.OwnGaps.{IsAnswerTo, IsGaps};
ghost use Rattle.flutejoin.specs.Joined.{Choice, InputContent, TellAll, content_facts};
ghost use Rattle.flutejoin.specs.JoinTrees.{Joined, Inputs, AreMade, bytes_of, leaf_facts};
ghost use Rattle.flute_streams.specs.declared.choice.selection.AllBut.{AllBut as Rest};
ghost use Rattle.flutejoin.specs.declared.fill.asking.Asking.{Asking as AskingValue};
ghost use Rattle.flutejoin.specs.declared.fill.asking.Asking.TheVariants.{All as AskAll};
ghost use Rattle.flutejoin.specs.declared.fill.listed_line.ListedLine.{ListedLine as LineValue};
ghost use Rattle.flutejoin.specs.declared.forget.ForgetCounts.{ForgetCounts as Counts};
ghost use Rattle.flutejoin.specs.declared.limits.TheConstants.{MAX_ENTRIES};

use flute_journal::laws::bytes_are_a_file_or_stop;
use flute_streams::laws::minus_is_what_a_join_needs;

/// A journal of which entries were forgotten has the others as they were.
///
/// - `none`: if none was forgotten, a journal of the newest version stays the same, byte for byte.
/// - `twice`: forgetting the same again forgets nothing, and writes the same bytes.
pub fn forgetting_leaves_the_rest()
    ensures none { (rest : Rest) (bytes written : List ℕ) (counts : Counts)
        (facts : List Known) → Leaves rest bytes written counts → counts.forgotten ≡ 0
        → Journal bytes facts → written ≡ bytes }
    ensures twice { (rest : Rest) (bytes once twice : List ℕ) (counts again : Counts)
        → Leaves rest bytes once counts → Leaves rest once twice again
        → (again.forgotten ≡ 0) × (twice ≡ once) }
{}

/// Objects are taken out before a join or after it: what is written is the same, byte for byte, of
/// any journals, whatever objects the join takes.
pub fn forgetting_objects_commutes_with_a_join()
    ensures { (choice : Choice) (rest : Rest) (journals written : List (List ℕ))
        (bs cs ds : List ℕ) (counts : Counts) → IsOfObjects rest
        → AreLeft rest journals written → Joined choice written bs → Joined choice journals cs
        → Leaves rest cs ds counts → bs ≡ ds }
{
    // By this the proof knows that a datagram file contains one list of datagrams.
    bytes_are_a_file_or_stop();
}

/// Joins of inputs with the same facts write equal bytes, in whatever order, however often and in
/// whatever groups the facts come.
///
/// - `bytes`: so it is with two joins of any inputs.
/// - `read`: what a join wrote is read as the facts of its inputs, their conflicts as conflicts.
/// - `trees`: so it is with joins of what joins wrote, to any depth, each of its own sender and
///   objects, if the facts of all that was joined in the first place have the same values.
/// - `facts`: a journal of some facts is read as any facts with the same value at each address. So
///   `extract_to` writes the same of the journal of any inputs with these facts.
pub fn joins_of_the_same_write_the_same()
    ensures bytes { (one two : Choice) (inputs others : List (List ℕ))
        (told further : List InputContent) (bs cs : List ℕ)
        → TellAll inputs told → TellAll others further
        → Same (flat_map (content_facts one) told) (flat_map (content_facts two) further)
        → Joined one inputs bs → Joined two others cs → bs ≡ cs }
    ensures read { (choice : Choice) (inputs : List (List ℕ)) (told : List InputContent)
        (bs : List ℕ) (held : List Known) → TellAll inputs told → Joined choice inputs bs
        → IsJournal bs held → Same held (flat_map (content_facts choice) told) }
    ensures trees { (one two : Choice) (inputs others : Inputs) (bs cs : List ℕ)
        → AreMade inputs → AreMade others
        → Same (leaf_facts one inputs) (leaf_facts two others) → Joined one (bytes_of inputs) bs
        → Joined two (bytes_of others) cs → bs ≡ cs }
    ensures facts { (held joined others : List Known) (bs : List ℕ)
        → IsJournalOf MAX_ENTRIES bs held → IsJournal bs joined → Same joined others
        → Same held others }
{
    // By this the proof knows that a datagram file contains one list of datagrams.
    bytes_are_a_file_or_stop();
}

/// What `minus` writes of a journal is all that a join of another needs of it, and no more.
///
/// - `enough`: in a join after the other it stands for the journal: whatever objects are taken, and
///   whatever else is joined, the bytes are equal.
/// - `held`: it has no entries if the other contains all that the journal contains.
/// - `after`: so it is with the other that it was joined into.
pub fn minus_is_enough_for_a_join()
    ensures enough { (choice : Choice) (first second missing bs cs : List ℕ) (count : ℕ)
        (others : List (List ℕ)) → IsMinus first second missing count
        → Joined choice (second ∷ missing ∷ others) bs
        → Joined choice (second ∷ first ∷ others) cs → bs ≡ cs }
    ensures held { (first second missing : List ℕ) (count : ℕ) (facts held : List Known)
        → IsMinus first second missing count → IsJournal first facts → IsJournal second held
        → Below facts held → count ≡ 0 }
    ensures after { (choice : Choice) (first second missing joined again : List ℕ)
        (count number : ℕ) → ((key : Key) → choice.takes key ≡ true)
        → IsMinus first second missing count → Joined choice (second ∷ missing ∷ []) joined
        → IsMinus first joined again number → number ≡ 0 }
{
    // By this the proof knows that a datagram file contains one list of datagrams.
    bytes_are_a_file_or_stop();
    minus_is_what_a_join_needs();
}

/// What `fill` writes of a journal is all that a join of the asker's journal with it needs, if that
/// has the value of each fact that was not asked for.
///
/// - `facts`: facts with what is asked for of others have the value of both at each address.
/// - `enough`: in a join after the asker's journal the answer stands for the journal: whatever
///   objects are taken, and whatever else is joined, the bytes are equal.
pub fn an_answer_is_enough_for_a_join()
    ensures facts { (asking : AskingValue) (listed : List LineValue) (facts held : List Known)
        → HaveTheRest asking listed facts held
        → Same (held ++ asked asking listed facts) (held ++ facts) }
    ensures enough { (choice : Choice) (asking : AskingValue)
        (asker journal lines answer bs cs : List ℕ) (count : ℕ) (others : List (List ℕ))
        (held : List Known) → IsJournal asker held → IsAnswer asking journal lines answer count
        → ((listed : List LineValue) (facts : List Known) → IsListing lines listed
        → IsJournal journal facts → HaveTheRest asking listed facts held)
        → Joined choice (asker ∷ answer ∷ others) bs
        → Joined choice (asker ∷ journal ∷ others) cs → bs ≡ cs }
{
    // By this the proof knows that a datagram file contains one list of datagrams.
    bytes_are_a_file_or_stop();
}

/// What `fill` writes by what `gaps` printed of the asker's own journal, or of some of its objects,
/// is all that a join of that journal with it needs.
///
/// - `listing`: what `gaps` prints without options, or with those that select objects, is read by
///   `fill`, and in one way.
/// - `asked`: by that a fact is asked for, if of its object no information is held; if one is held,
///   and its symbol is of the partition, and nothing of that is held; or if the information is in
///   conflict, and the fact is of a symbol.
/// - `enough`: if the asker has the value of each fact of the other journal, or asks for it so, the
///   answer stands for that journal in a join after the asker's: the bytes are equal.
/// - `compared`: so it is if `compare` finds nothing that differs, and no symbol that the asker
///   lacks is outside a partition that it knows.
pub fn an_answer_to_own_gaps_is_enough()
    ensures listing { (asker lines : List ℕ) → IsGaps asker lines → (listed : List LineValue)
        × IsListing lines listed
        × ((others : List LineValue) → IsListing lines others → others ≡ listed) }
    ensures asked { (asker lines : List ℕ) (listed : List LineValue) (held : List Known)
        (f : Known) → IsGaps asker lines → IsListing lines listed
        → IsJournalWithin MAX_ENTRIES asker held → AsksFor held f
        → asks AskAll listed f ≡ true }
    ensures enough { (choice : Choice) (asker journal answer bs cs : List ℕ)
        (others : List (List ℕ)) (held facts : List Known) → IsAnswerTo asker journal answer
        → IsJournalWithin MAX_ENTRIES asker held → IsJournalWithin MAX_ENTRIES journal facts
        → AreHeldOrAsked held facts → Joined choice (asker ∷ answer ∷ others) bs
        → Joined choice (asker ∷ journal ∷ others) cs → bs ≡ cs }
    ensures compared { (choice : Choice) (asker journal answer bs cs : List ℕ)
        (others : List (List ℕ)) (held facts : List Known) → IsAnswerTo asker journal answer
        → AreAlike asker journal → IsJournalWithin MAX_ENTRIES asker held
        → IsJournalWithin MAX_ENTRIES journal facts → AreWithin held facts
        → Joined choice (asker ∷ answer ∷ others) bs
        → Joined choice (asker ∷ journal ∷ others) cs → bs ≡ cs }
{
    // By this the proof knows that a datagram file contains one list of datagrams.
    bytes_are_a_file_or_stop();
}
