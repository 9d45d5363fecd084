//! Laws of what is written. Each is an empty function whose contract is the law.

ghost use Rattle.rtps_announcement.specs.Gap.{NamesItsNumbers};
ghost use Rattle.rtps_announcement.specs.ReadAgain.{GapIsReadAgain, HeartbeatIsReadAgain, ParticipantEndIsReadAgain, ParticipantIsReadAgain, ReaderEndIsReadAgain, ReaderIsReadAgain};

/// What is written is exactly one message by the grammar, and a receiver reads in it what was
/// meant.
pub fn read_again()
    ensures gap { GapIsReadAgain }
    ensures numbers { NamesItsNumbers }
    ensures heartbeat { HeartbeatIsReadAgain }
    ensures participant { ParticipantIsReadAgain }
    ensures participant_gone { ParticipantEndIsReadAgain }
    ensures reader { ReaderIsReadAgain }
    ensures reader_gone { ReaderEndIsReadAgain }
{}
