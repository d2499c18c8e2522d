//! The names of what items carry: the kinds of TLPs, the types of DLLPs, and how packets can fail.
//! PCI Express Base Specification 5.0, chapter 2 (TLP types) and chapter 3 (DLLP types).
ghost use Rattle.std.specs.Prelude.{◌≡◌};
ghost use Rattle.pl_filter.specs.Names.{named, text_of};

use pl_base::Class;
use pl_dllp::Stage;
use pl_tlp::Kind;

/// What an item carries, by name.
#[derive(Clone, Copy, Debug, PartialEq, Eq)]
pub enum Name {
    /// A TLP of this kind.
    Tlp(Kind),
    Ack,
    Nak,
    MRInit,
    DataLinkFeature,
    PmEnterL1,
    PmEnterL23,
    PmActiveStateRequestL1,
    PmRequestAck,
    Vendor,
    Nop,
    /// A DLLP of flow control: `InitFC1-P` is the first stage of the posted class.
    Flow(Stage, Class),
    /// A DLLP of a type that is neither named nor reserved.
    Other,
    /// A DLLP with a wrong CRC.
    BadCrc,
    /// A DLLP of a reserved type.
    Reserved,
    /// A TLP of a pair of Fmt and Type that isn't defined.
    Undefined,
    /// A TLP of another size than its header says.
    WrongSize,
}

/// Every name.
const NAMES: [Name; 42] = [
    Name::Tlp(Kind::MRd),
    Name::Tlp(Kind::MRdLk),
    Name::Tlp(Kind::MWr),
    Name::Tlp(Kind::IORd),
    Name::Tlp(Kind::IOWr),
    Name::Tlp(Kind::CfgRd0),
    Name::Tlp(Kind::CfgWr0),
    Name::Tlp(Kind::CfgRd1),
    Name::Tlp(Kind::CfgWr1),
    Name::Tlp(Kind::Msg),
    Name::Tlp(Kind::MsgD),
    Name::Tlp(Kind::Cpl),
    Name::Tlp(Kind::CplD),
    Name::Tlp(Kind::CplLk),
    Name::Tlp(Kind::CplDLk),
    Name::Tlp(Kind::FetchAdd),
    Name::Tlp(Kind::Swap),
    Name::Tlp(Kind::Cas),
    Name::Ack,
    Name::Nak,
    Name::MRInit,
    Name::DataLinkFeature,
    Name::PmEnterL1,
    Name::PmEnterL23,
    Name::PmActiveStateRequestL1,
    Name::PmRequestAck,
    Name::Vendor,
    Name::Nop,
    Name::Flow(Stage::Init1, Class::P),
    Name::Flow(Stage::Init1, Class::Np),
    Name::Flow(Stage::Init1, Class::Cpl),
    Name::Flow(Stage::Init2, Class::P),
    Name::Flow(Stage::Init2, Class::Np),
    Name::Flow(Stage::Init2, Class::Cpl),
    Name::Flow(Stage::Update, Class::P),
    Name::Flow(Stage::Update, Class::Np),
    Name::Flow(Stage::Update, Class::Cpl),
    Name::Other,
    Name::BadCrc,
    Name::Reserved,
    Name::Undefined,
    Name::WrongSize,
];

impl Name {
    /// The name as it is printed, such as `CplD`, `UpdateFC-NP` or `badcrc`.
    pub fn text(self) -> &'static str
        ensures { result.now ≡ text_of self }
    {
        match self {
            Name::Tlp(kind) => kind.name(),
            Name::Ack => "Ack",
            Name::Nak => "Nak",
            Name::MRInit => "MRInit",
            Name::DataLinkFeature => "Data_Link_Feature",
            Name::PmEnterL1 => "PM_Enter_L1",
            Name::PmEnterL23 => "PM_Enter_L23",
            Name::PmActiveStateRequestL1 => "PM_Active_State_Request_L1",
            Name::PmRequestAck => "PM_Request_Ack",
            Name::Vendor => "Vendor",
            Name::Nop => "NOP",
            Name::Flow(stage, class) => flow_text(stage, class),
            Name::Other => "other",
            Name::BadCrc => "badcrc",
            Name::Reserved => "reserved",
            Name::Undefined => "undefined",
            Name::WrongSize => "wrongsize",
        }
    }

    /// The name with this text, or None where there is none.
    #[tactic(auto, unfolding(crate::specs::Names::named))]
    pub fn with_text(text: &[u8]) -> Option<Name>
        ensures { result ≡ named text.now }
    {
        NAMES
            .iter()
            .copied()
            .find(|name| name.text().as_bytes() == text)
    }
}

/// The printed name of a flow-control DLLP.
fn flow_text(stage: Stage, class: Class) -> &'static str
    ensures { result.now ≡ text_of (Name.Flow stage class) }
{
    match (stage, class) {
        (Stage::Init1, Class::P) => "InitFC1-P",
        (Stage::Init1, Class::Np) => "InitFC1-NP",
        (Stage::Init1, Class::Cpl) => "InitFC1-Cpl",
        (Stage::Init2, Class::P) => "InitFC2-P",
        (Stage::Init2, Class::Np) => "InitFC2-NP",
        (Stage::Init2, Class::Cpl) => "InitFC2-Cpl",
        (Stage::Update, Class::P) => "UpdateFC-P",
        (Stage::Update, Class::Np) => "UpdateFC-NP",
        (Stage::Update, Class::Cpl) => "UpdateFC-Cpl",
    }
}
