//! What a reader may conclude of a manager: laws, without code.
ghost use Rattle.iol_params.specs.Laws.{DownloadsAreWhole, CutOffsStayOut, StaysConsistent, UploadsAreOneMoment, FlagStays, SetsFit};

/// A law of the definitions: a download, of a block or of Data Storage, is applied whole or not at
/// all. Whatever comes in it, writes, changes at the device and commands that are refused, no value
/// changes before its end. The end, if it is Written, brings all that was written, in order, none
/// of it refused, and no order rule is broken. If the end is refused, or the activity is over, all
/// values are as they were.
///
/// Rule ACT-2.
///
/// Needed by the promises of assurance.md.
pub fn downloads_are_whole()
    ensures { DownloadsAreWhole }
{}

/// A law of the definitions: behind a download in which the master was silent, whatever it still
/// writes of it is refused, its end too, and changes nothing. A change or a factory reset at the
/// device doesn't let the rest in.
///
/// Rule ACT-7.
///
/// Needed by the promises of assurance.md.
pub fn cut_offs_stay_out()
    ensures { CutOffsStayOut }
{}

/// A law of the definitions: what an upload reads is of one moment, whatever comes in it.
///
/// Needed by the promises of assurance.md.
pub fn uploads_are_one_moment()
    ensures { UploadsAreOneMoment }
{}

/// A law of the definitions: only the ends of Data Storage's activities and a factory reset clear
/// the flag, and only if they are Written.
///
/// Rule DSD-4.
///
/// Needed by the promises of assurance.md.
pub fn flag_stays()
    ensures { FlagStays }
{}

/// A law of the definitions: a set fits each device of its table. What Data Storage fetched of one
/// device is Written, all of it, at another one that isn't locked and has no activity. Behind the
/// end, which is Written too, that has the same set and the same checksum.
///
/// Needed by `iol_exchange::laws::restored_sets_are_in_force` and the promises of assurance.md.
pub fn sets_fit()
    ensures { SetsFit }
{}

/// A law of the definitions: by each write, command and end of an activity, each member keeps a
/// value that fits, and each order rule holds.
///
/// Rule PAR-6.
///
/// Needed by the promises of assurance.md.
pub fn stays_consistent()
    ensures { StaysConsistent }
{}
