// Laws of logs, each the contract of a function that does nothing.
ghost use Rattle.cube_journal.specs.Laws.{LogsGrow, KeptRecovers, EntriesAreSound, SecondReadsBack, SecondIsShort, SecondIsKept};

/// The line of one more request behind ended lines recovers it too; a part of the line recovers nothing more, or all of it.
pub fn logs_grow()
    ensures { LogsGrow }
{}

/// What a log recovers are requests that the dimensions allow, levels of lattice measures, and links of parity measures.
pub fn entries_are_sound()
    ensures { EntriesAreSound }
{}

/// What is kept of a log when it is opened recovers what the log did.
pub fn kept_recovers()
    ensures { KeptRecovers }
{}

/// The text of sources and links as a journal of the second version recovers just these.
pub fn second_reads_back()
    ensures { SecondReadsBack }
{}

/// This text has a first line of 80 bytes, and at most 128 bytes for each entry.
pub fn second_is_short()
    ensures { SecondIsShort }
{}

/// Each line of this text has ended.
pub fn second_is_kept()
    ensures { SecondIsKept }
{}
