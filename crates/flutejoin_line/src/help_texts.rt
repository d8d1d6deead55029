//! What the help texts of the program and of its commands end with.

// What the help text of a command ends with: what it prints and its limits, the statuses that all
// commands have, and an example.
macro_rules! help_of {
    ($prints:literal, $example:literal) => {
        concat!(
            $prints,
            "\nStatus 0: done. 1: an input is at fault. 2: the command line. ",
            "3: memory or a device. Example:\n  flutejoin ",
            $example
        )
    };
}

/// What the help text of the program ends with.
pub const PROGRAM_HELP: &str = "\
A journal is what a station received; a datagram file has UDP payloads of one sender.
Example: a file is sent as datagrams, these are received, and the file comes out.
  seq 1000000 1004999 > file
  flutejoin carousel -o sent --tsi 7 --toi 1 --symbol 1000 --block 16 file
  flutejoin join -o station1 sent
  flutejoin gaps station1
  flutejoin extract -o out --tsi 7 --toi 1 station1
  flutejoin packet 10A004000000000000000007000000010000000068656C6C

A journal has up to 16,777,216 entries, and a datagram file as many records.
A store holds up to 64 sessions, 4,096 objects of each, and 1,048,576 symbols of each object.
With --any-size `join`, `gaps`, `extract` and `info` take 32,767 sessions, and 16,777,216 of both.
A join has up to 64 inputs.

A fault is one line on standard error.
Status 0: all was done. 1: an input is at fault. 2: the command line. 3: memory or a device.";

pub const PACKET_HELP: &str = help_of!(
    "\
A datagram is given as hexadecimal digits, two for each byte. Prints four lines: session, object,
info and symbol. With --json each is an object of JSON.",
    "packet 10A004000000000000000007000000010000000068656C6C"
);

pub const SHOW_HELP: &str = help_of!(
    "\
Prints a line for each entry, and then: entries N. The journal may have up to 16,777,216 entries.
With --sums a symbol's line ends in a sum in place of its bytes, the first 8 bytes of their SHA-256:
by it two sides compare what they have before a symbol is sent.
With --json each line is an object of JSON: a symbol has no bytes there, but its sum with --sums.
The options choose entries, and narrow one another. An FDT Instance is --toi 0 --fdt N.
With --list only entries of the objects that lines of KEYS begin with (see `forget`).",
    "show station1"
);

pub const GAPS_HELP: &str = help_of!(
    "\
Prints a line for each object: whole, partial, no information or conflicting information.
The options choose objects, and narrow one another. An FDT Instance is --toi 0 --fdt N.
With --list only the objects that lines of KEYS begin with (see `forget`).
Behind partial a line for each gap follows: gap BLOCK/FIRST-LAST, and whether these symbols are
missing, conflicting or misfit. --summary has a line for each session instead: session TSI, how many
objects, whole, partial, the missing, conflicting and misfit symbols, and unknown, which have no or
conflicting information.
--conflicts lists only objects with a conflict: unplaced conflicting N are symbols in no gap.
--ranges has the bytes of the gaps in their place: bytes FIRST-LAST, from 0, as HTTP counts them.
--json has the same values as an object of JSON a line.
--check ends with status 1 if one is not whole, with --conflicts if there is one.
A line that begins with `source` is of a sender that is not ::, and `extract` takes it by --source.
The journal may have as much as a store holds, or with --any-size more (flutejoin --help).",
    "gaps station1"
);

pub const COMPARE_HELP: &str = help_of!(
    "\
Prints a line for each object of either journal: the symbols of which both have the same (same) or
not (differ), or only the first or the second has any (first, second); and then its information:
same, differ, first, second or none. Where a conflict meets a value they differ.
The options choose objects, and narrow one another. An FDT Instance is --toi 0 --fdt N.
--summary has a line for each session instead. --check ends with status 1 if anything differs.
--json has the same values as an object of JSON a line.
Each journal may have up to 16,777,216 entries; the limits of a store do not apply.",
    "compare station1 station2"
);

pub const EXTRACT_HELP: &str = help_of!(
    "\
Prints: bytes N. Of an object that is not whole nothing is written.
With --all in place of --toi each whole object becomes a file of the new folder OUT, named by its
sender, TSI and TOI; prints the line of `gaps` for each object, and last: written N.
With --all and --list only the objects that lines of KEYS begin with (see `forget`).
At `no object` another sender, TSI or TOI may have it: `gaps` lists the objects that there are.
The journal may have as much as a store holds, or with --any-size more (flutejoin --help).",
    "extract -o out --tsi 7 --toi 1 station1"
);

pub const INFO_HELP: &str = help_of!(
    "\
Prints: entries N. It is for an object whose packets do not tell its information.
With --list in place of the numbers it adds what the lines of a file tell, each as `show` prints it.
The journal may have as much as a store holds, or with --any-size more (flutejoin --help).",
    "info -o known --tsi 7 --toi 1 --length 40000 --symbol 1000 --block 16 station1"
);

pub const JOIN_HELP: &str = help_of!(
    "\
Prints: datagrams N, refused N (those of them that are not taken) and entries N.
With --tsi only these sessions are taken, with --toi only this object of each (an FDT Instance is
--toi 0 --fdt N), with --no-fdt no FDT Instance, with --without no object that a line of KEYS begins
with as `gaps` names it; others N then counts the entries and datagrams of others.
--source is the sender of all datagram files of the call; journals keep theirs.
SIZE is a number of bytes, and K, M or G behind it is times 1,024, 1,048,576 or 1,073,741,824.
All inputs, at most 64, may together have as much as a store holds, or with --any-size more
(flutejoin --help).",
    "join -o all station1 station2"
);

pub const MERGE_HELP: &str = help_of!(
    "\
Prints: entries N. Each journal may have up to 16,777,216 entries; the limits of a store do not
apply. OUT is no input.",
    "merge -o both station1 station2"
);

pub const MINUS_HELP: &str = help_of!(
    "\
Prints: entries N. Joined with OUT, B becomes what it becomes if it is joined with A: OUT has the
entries of A of which B has none, or another value.
Each journal may have up to 16,777,216 entries; the limits of a store do not apply.
OUT is no input.",
    "minus -o new station1 station2"
);

pub const FILL_HELP: &str = help_of!(
    "\
Prints: entries N. LINES is what `gaps` prints of another journal, without options. OUT has what of
J that may lack: of a whole object nothing; of a partial one the symbols that are missing; of one
with conflicting information its symbols; of one without information, or that no line names, all.
With --only it has just the symbols that a line names as missing, and the information of objects
that LINES names as without. What both have is not compared: see `compare` and `minus`.
J may have up to 16,777,216 entries; the limits of a store do not apply. OUT is no input.",
    "fill -o answer --gaps wanted station1"
);

pub const FORGET_HELP: &str = help_of!(
    "\
Prints: forgotten N and entries N. The options narrow one another; at least one is needed. An FDT
Instance is --toi 0 --fdt N. Each line of KEYS begins with the name of an object, as `gaps` prints
it; lines that are empty or begin with #, gap or bytes name none.
It is no join: what is forgotten comes back with the next input of a join that has it.
The journal may have up to 16,777,216 entries; the limits of a store do not apply.",
    "forget -o without --conflicts all"
);

pub const CAROUSEL_HELP: &str = help_of!(
    "\
Prints: datagrams N. FILE has up to 4,294,967,295 bytes.",
    "carousel -o sent --tsi 7 --toi 1 --symbol 1000 --block 16 file"
);
