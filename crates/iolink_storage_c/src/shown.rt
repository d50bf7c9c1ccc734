//! What C is shown of Data Storage, of a set and of a block.
ghost use Rattle.std.specs.Prelude.{◌≡◌};
ghost use Rattle.std.specs.Option.{option_copied};
ghost use Rattle.iolink_storage_c.specs.Shown.{SetIsShown, refusal_shown, standing_shown, block_shown, served_number, trouble_number};

use iol_storage::{Agreement, DownloadResult, Refusal, Set, SetImage, StorageStanding, Trouble};
use iolink_handle::put;
use iolink_port_forms::cause_number;

/// What a device refused, and how; all 0 where it refused nothing.
#[derive(Clone, Copy)]
#[repr(C)]
pub struct IolRefusal {
    /// The place of the request.
    pub index: u16,
    pub sub: u8,
    /// The ErrorType: ErrorCode and AdditionalCode.
    pub error: u8,
    pub additional: u8,
}

/// What came of Data Storage in the present session.
#[derive(Clone, Copy)]
#[repr(C)]
pub struct IolStanding {
    /// 0 awaited, 1 served, 2 trouble, 3 released: served in spite of a trouble.
    pub kind: u8,
    /// Served: 1 off, 2 unsupported, 3 empty, 4 same, 5 restored, 6 fetched. A trouble: 1 wrong
    /// identity, 2 no storage, 3 locked, 4 too large, 5 bad list, 6 refused, 7 attempts. Else 0.
    pub detail: u8,
    /// What the device refused, where that is the trouble.
    pub refused: IolRefusal,
}

/// How a block ended.
#[derive(Clone, Copy)]
#[repr(C)]
pub struct IolBlockEnd {
    /// 1 applied, 3 refused by the device, 4 not applied, 8 unknown, 16 no ISDU.
    pub kind: u8,
    /// Why it is unknown, as of an outcome. Else 0.
    pub cause: u8,
    /// What the device refused, where it did.
    pub refused: IolRefusal,
}

/// The octets of a set: `length` of them, none where that is 0.
#[repr(C)]
pub struct IolSet {
    pub length: u16,
    pub octets: [u8; 2079],
}

/// Nothing was refused.
const NOTHING: IolRefusal = IolRefusal {
    index: 0,
    sub: 0,
    error: 0,
    additional: 0,
};

fn refusal_of(refusal: Option<Refusal>) -> IolRefusal
    ensures { result ≡ refusal_shown refusal }
{
    match refusal {
        Some(refusal) => IolRefusal {
            index: refusal.place.index,
            sub: refusal.place.sub,
            error: refusal.error,
            additional: refusal.additional,
        },
        None => NOTHING,
    }
}

/// Shows C what came of Data Storage.
pub(crate) fn standing_of(standing: StorageStanding) -> IolStanding
    ensures { result ≡ standing_shown standing }
{
    let (kind, detail, trouble) = match standing {
        StorageStanding::Awaited => (0, 0, None),
        StorageStanding::Served(how) => (1, served_number(how), None),
        StorageStanding::Trouble(why) => (2, trouble_number(why), Some(why)),
        StorageStanding::Released(why) => (3, trouble_number(why), Some(why)),
    };
    let refused = match trouble {
        Some(Trouble::Refused(refusal)) => Some(refusal),
        _ => None,
    };
    IolStanding {
        kind,
        detail,
        refused: refusal_of(refused),
    }
}

fn served_number(how: Agreement) -> u8
    ensures { result ≡ served_number how }
{
    match how {
        Agreement::Off => 1,
        Agreement::Unsupported => 2,
        Agreement::Empty => 3,
        Agreement::Same => 4,
        Agreement::Restored => 5,
        Agreement::Fetched => 6,
    }
}

fn trouble_number(why: Trouble) -> u8
    ensures { result ≡ trouble_number why }
{
    match why {
        Trouble::WrongIdentity => 1,
        Trouble::NoStorage => 2,
        Trouble::Locked => 3,
        Trouble::TooLarge => 4,
        Trouble::BadList => 5,
        Trouble::Refused(_) => 6,
        Trouble::Attempts => 7,
    }
}

/// Shows C how a block ended.
pub(crate) fn block_end_of(end: DownloadResult) -> IolBlockEnd
    ensures { result ≡ block_shown end }
{
    let (kind, cause, refused) = match end {
        DownloadResult::Applied => (1, 0, None),
        DownloadResult::Refused(refusal) => (3, 0, Some(refusal)),
        // A flag that is set ends no block.
        DownloadResult::FlagSet | DownloadResult::NotApplied => (4, 0, None),
        DownloadResult::Unknown(cause) => (8, cause_number(cause), None),
        DownloadResult::NoIsdu => (16, 0, None),
    };
    IolBlockEnd {
        kind,
        cause,
        refused: refusal_of(refused),
    }
}

/// Shows C the octets of a set, no octet where there is none.
pub(crate) fn show_set(set: Option<&Set>, out: &mut IolSet)
    ensures { SetIsShown (option_copied set.entry) out.new }
{
    out.length = 0;
    if let Some(set) = set {
        let mut image = SetImage::new();
        set.write_into(&mut image);
        out.length = image.len() as u16;
        put(image.as_slice(), &mut out.octets);
    }
}
