//! The groups of kinds that the rules speak of.
//! PCI Express Base Specification 5.0, chapter 2, transaction layer protocol: Fmt and Type fields,
//! non-posted requests and their completions.
ghost use Rattle.std.specs.Prelude.{◌≡◌};
ghost use Rattle.pl_tlp.specs.Groups as spec;

use crate::kind::Kind;

impl Kind {
    /// Whether it reads memory, locked or not.
    pub fn is_memory_read(self) -> bool
        ensures { result ≡ spec.is_memory_read self }
    {
        matches!(self, Kind::MRd | Kind::MRdLk)
    }

    /// Whether it reads memory and locks it.
    pub fn is_locked_read(self) -> bool
        ensures { result ≡ spec.is_locked_read self }
    {
        matches!(self, Kind::MRdLk)
    }

    /// Whether it reads or writes configuration space.
    pub fn is_configuration_request(self) -> bool
        ensures { result ≡ spec.is_configuration_request self }
    {
        matches!(
            self,
            Kind::CfgRd0 | Kind::CfgWr0 | Kind::CfgRd1 | Kind::CfgWr1
        )
    }

    /// Whether it reads or writes I/O or configuration space.
    pub fn is_io_or_configuration_request(self) -> bool
        ensures { result ≡ spec.is_io_or_configuration_request self }
    {
        matches!(self, Kind::IORd | Kind::IOWr) || self.is_configuration_request()
    }

    /// Whether it is an AtomicOp.
    pub fn is_atomic(self) -> bool
        ensures { result ≡ spec.is_atomic self }
    {
        matches!(self, Kind::FetchAdd | Kind::Swap | Kind::Cas)
    }

    /// Whether it is the AtomicOp with two operands.
    pub fn is_compare_and_swap(self) -> bool
        ensures { result ≡ spec.is_compare_and_swap self }
    {
        matches!(self, Kind::Cas)
    }

    /// Whether a request of this kind isn't posted: it needs a completion.
    pub fn needs_completion(self) -> bool
        ensures { result ≡ spec.needs_completion self }
    {
        self.is_memory_read() || self.is_io_or_configuration_request() || self.is_atomic()
    }

    /// Whether it is a message, with data or without.
    pub fn is_message(self) -> bool
        ensures { result ≡ spec.is_message self }
    {
        matches!(self, Kind::Msg | Kind::MsgD)
    }

    /// Whether it is a message with data.
    pub fn is_message_with_data(self) -> bool
        ensures { result ≡ spec.is_message_with_data self }
    {
        matches!(self, Kind::MsgD)
    }

    /// Whether it is a completion.
    pub fn is_completion(self) -> bool
        ensures { result ≡ spec.is_completion self }
    {
        matches!(self, Kind::Cpl | Kind::CplD | Kind::CplLk | Kind::CplDLk)
    }

    /// Whether it is a completion with data.
    pub fn is_completion_with_data(self) -> bool
        ensures { result ≡ spec.is_completion_with_data self }
    {
        matches!(self, Kind::CplD | Kind::CplDLk)
    }

    /// Whether it completes a locked read.
    pub fn is_locked_completion(self) -> bool
        ensures { result ≡ spec.is_locked_completion self }
    {
        matches!(self, Kind::CplLk | Kind::CplDLk)
    }

    /// Whether it completes another request, and has data.
    pub fn is_plain_completion_with_data(self) -> bool
        ensures { result ≡ spec.is_plain_completion_with_data self }
    {
        matches!(self, Kind::CplD)
    }
}
