//! Laws of the definitions: each is the contract of a function that does nothing.
ghost use Rattle.std.specs.Prelude.{◌≡◌, ℕ, ◌+◌, ◌<◌};
ghost use Rattle.std.specs.Prelude.{◌^◌, ◌↔◌, ◌⊎◌, List, [], ◌∷◌, ◌++◌};
ghost use Rattle.std.specs.Prelude.{length, Option, IfSome};
ghost use Rattle.std.specs.List.{AllByRecursion};
ghost use Rattle.flute_parts.specs.Addresses.{address};
ghost use Rattle.flute_parts.specs.Facts.{Same, Below, IsRising};
ghost use Rattle.flute_parts.specs.declared.fact.Fact.{Fact};
ghost use Rattle.flute_journal.specs.declared.fault.ReadFault.{ReadFault as Fault};
ghost use Rattle.flute_journal.specs.Format.{entry_in, spelling_in};
ghost use Rattle.flute_journal.specs.Journal.{IsFactIn, Collects, JournalIn, IsJournal};
ghost use Rattle.flute_journal.specs.Journal.{IsJournalWithin};
ghost use Rattle.flute_journal.specs.JournalFraming.{journal_framing};
ghost use Rattle.flute_journal.specs.Framing.{Stops, HasFault, GivesItem, GivesEnd, GivesFault};
ghost use Rattle.flute_journal.specs.Framing.{Sofar};
ghost use Rattle.flute_parts.specs.Ranges.{IsByte, IsFact};
ghost use Rattle.flute_journal.specs.declared.format.version.Version.{Version};
ghost use Rattle.flute_journal.specs.declared.format.version.Version.TheVariants.{One, Two};
ghost use Rattle.flute_journal.specs.Stores.{BeginsWith, IsJournalOf};
ghost use Rattle.flute_journal.specs.declared.fault.ReadFault.TheVariants as faults;
ghost use Rattle.flute_journal.specs.Records.{IsFileOf, IsFileWithin};
ghost use Rattle.flute_journal.specs.FileFraming.{file_framing};
ghost use Rattle.flute_journal.specs.declared.readers.reader_state.ReaderState.{ReaderState};
ghost use Rattle.flute_journal.specs.declared.readers.reader_state.ReaderState.TheVariants as states;

/// A fact has one entry in a version, and a content one journal; an entry has one fact, and a
/// journal one content.
///
/// - `one_reading`: what an entry spells is read in one way, whatever follows it, in each version.
/// - `written`: every fact is spelled in the version that is written.
/// - `old`: and in version 1 exactly if its sender is 0.
/// - `equal`: journals of one version are equal exactly if their facts have the same value at each
///   address.
/// - `content`: lists with one journal have the same value at each address.
/// - `version`: no bytes are a journal of two versions.
/// - `prefix`: no journal is a proper prefix of another, of whatever versions they are.
/// - `bounded`: a journal within a bound is a journal of the facts that its entries are.
/// - `begun`: a journal that begins with these entries contains their facts.
/// - `spelling`: rising facts with the same value at each address are spelled alike.
pub fn a_journal_is_its_content()
    ensures one_reading { (v : Version) (f g : Fact) (x y : List ℕ) → IsFactIn v f
        → IsFactIn v g → entry_in v f ++ x ≡ entry_in v g ++ y → (f ≡ g) × (x ≡ y) }
    ensures written { (f : Fact) → IsFact f → IsFactIn Two f }
    ensures old { (f : Fact) → IsFact f
        → IsFactIn One f ↔ ((address f).key.session.sender ≡ 0) }
    ensures equal { (v : Version) (bs cs : List ℕ) (F G : List Fact) → JournalIn v bs F
        → JournalIn v cs G → (bs ≡ cs) ↔ Same F G }
    ensures content { (bs : List ℕ) (F G : List Fact) → IsJournal bs F → IsJournal bs G
        → Same F G }
    ensures version { (v w : Version) (bs : List ℕ) (F G : List Fact) → JournalIn v bs F
        → JournalIn w bs G → v ≡ w }
    ensures prefix { (bs more : List ℕ) (F G : List Fact) → IsJournal bs F
        → IsJournal (bs ++ more) G → more ≡ [] }
    ensures bounded { (bs : List ℕ) (limit : ℕ) (F : List Fact) → limit < 2 ^ 64
        → IsJournalOf limit bs F → IsJournal bs F }
    ensures begun { (bs : List ℕ) (F es : List Fact) (limit : ℕ) → IsJournal bs F
        → BeginsWith limit bs es → Below es F }
    ensures spelling { (v : Version) (es fs : List Fact) → IsRising es → IsRising fs
        → Same es fs → spelling_in v es ≡ spelling_in v fs }
{}

/// Bytes are a journal within the bound, or stop at a fault.
///
/// - `either`: they are one or stop.
/// - `never_both`: a journal within the bound has no fault.
/// - `once`: bytes have one first fault, after one list of entries.
/// - `bound`: a journal stops only if it has more entries than the bound.
pub fn bytes_are_a_journal_or_stop()
    ensures either { (bs : List ℕ) (limit : ℕ) → AllByRecursion IsByte bs
        → ((es : List Fact) × IsJournalWithin limit bs es)
        ⊎ ((es : List Fact) × ((f : Fault) × Stops journal_framing bs limit es f)) }
    ensures never_both { (bs : List ℕ) (limit : ℕ) (es fs : List Fact) (f : Fault)
        → limit < 2 ^ 64 → IsJournalWithin limit bs es → Stops journal_framing bs limit fs f
        → ⊥ }
    ensures once { (bs : List ℕ) (limit : ℕ) (es fs : List Fact) (f g : Fault)
        → Stops journal_framing bs limit es f → Stops journal_framing bs limit fs g
        → (es ≡ fs) × (f ≡ g) }
    ensures bound { (bs : List ℕ) (F es : List Fact) (limit : ℕ) (f : Fault) → IsJournal bs F
        → Stops journal_framing bs limit es f
        → (f ≡ faults.TooMany) × ((all : List Fact) × IsJournalWithin (length all) bs all
        × (limit < length all)) }
{}

/// Bytes are a datagram file within the bound, or stop at a fault.
///
/// - `either`: they are one or stop.
/// - `never_both`: a datagram file within the bound has no fault.
/// - `once`: bytes have one first fault, after one list of datagrams.
/// - `bound`: a datagram file stops only if it has more records than the bound.
/// - `one_reading`: a datagram file is the file of one list of datagrams.
pub fn bytes_are_a_file_or_stop()
    ensures either { (bs : List ℕ) (limit : ℕ) → AllByRecursion IsByte bs
        → ((ds : List (List ℕ)) × IsFileWithin limit bs ds)
        ⊎ ((ds : List (List ℕ)) × ((f : Fault) × Stops file_framing bs limit ds f)) }
    ensures never_both { (bs : List ℕ) (limit : ℕ) (ds es : List (List ℕ)) (f : Fault)
        → IsFileWithin limit bs ds → Stops file_framing bs limit es f → ⊥ }
    ensures once { (bs : List ℕ) (limit : ℕ) (ds es : List (List ℕ)) (f g : Fault)
        → Stops file_framing bs limit ds f → Stops file_framing bs limit es g
        → (ds ≡ es) × (f ≡ g) }
    ensures bound { (bs : List ℕ) (limit : ℕ) (ds es : List (List ℕ)) (f : Fault)
        → IsFileOf bs ds → Stops file_framing bs limit es f
        → (f ≡ faults.TooMany) × (limit < length ds) }
    ensures one_reading { (bs : List ℕ) (ds es : List (List ℕ)) → IsFileOf bs ds
        → IsFileOf bs es → ds ≡ es }
{}

/// What a datagram file contains is known from what its reader gives record by record: after
/// these records it is where they end; at the end the file was that of all of them, and at a
/// fault the file has this fault.
pub fn a_file_is_read_record_by_record()
    ensures begins { (limit : ℕ) (first : Option (List ℕ)) → Sofar file_framing limit first first
        states.Header [] }
    ensures goes_on { (limit : ℕ) (first now next : Option (List ℕ)) (old new : ReaderState ℕ)
        (ds : List (List ℕ)) (d : List ℕ) → Sofar file_framing limit first now old ds
        → GivesItem file_framing limit old new now next d
        → Sofar file_framing limit first next new (ds ++ d ∷ []) }
    ensures ends { (limit : ℕ) (first now next : Option (List ℕ)) (old new : ReaderState ℕ)
        (ds : List (List ℕ)) → Sofar file_framing limit first now old ds
        → GivesEnd file_framing old new now next
        → IfSome first (λ bytes. IsFileWithin limit bytes ds) }
    ensures stops { (limit : ℕ) (first now next : Option (List ℕ)) (old new : ReaderState ℕ)
        (ds : List (List ℕ)) (f : Fault) → Sofar file_framing limit first now old ds
        → GivesFault file_framing limit old new now next f → HasFault file_framing limit first f }
{}
