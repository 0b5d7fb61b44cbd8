//! The types of flags in events, and the names of their bits.

ghost use Rattle.std.specs.Prelude.{◌≡◌, ⊤};
ghost use Rattle.binlog_consts.specs.Flags.{event_flags, event_flags_of, semi_sync_flags, semi_sync_flags_of, gtid_flags, gtid_flags_of, rows_event_flags, rows_event_flags_of, user_var_flags, user_var_flags_of, known_flags};

use bitflags::{Flag, Flags, bitflag_items};
use thiserror::Error;

/// The flags in an event's header.
#[derive(Clone, Copy, Debug, PartialEq, Eq, Hash)]
pub struct EventFlags(u16);

bitflag_items! {
    impl EventFlags: u16 {
        /// The log file is not closed. When it is closed, the flag is cleared in its
        /// `FORMAT_DESCRIPTION_EVENT`.
        const LOG_EVENT_BINLOG_IN_USE_F = 0x0001;
        /// Unused.
        const LOG_EVENT_FORCED_ROTATE_F = 0x0002;
        /// The statement depends on its thread, such as one on a temporary table.
        const LOG_EVENT_THREAD_SPECIFIC_F = 0x0004;
        /// The statement needs no default database, such as `CREATE DATABASE`.
        const LOG_EVENT_SUPPRESS_USE_F = 0x0008;
        /// Unused.
        const LOG_EVENT_UPDATE_TABLE_MAP_VERSION_F = 0x0010;
        /// The event isn't in the source's log, and doesn't advance the position in that log.
        const LOG_EVENT_ARTIFICIAL_F = 0x0020;
        /// The event was written to a relay log by the replica's receiver thread.
        const LOG_EVENT_RELAY_LOG_F = 0x0040;
        /// A reader that doesn't know the event's type may skip the event.
        const LOG_EVENT_IGNORABLE_F = 0x0080;
        /// The event is written to the log whatever the filters are.
        const LOG_EVENT_NO_FILTER_F = 0x0100;
        /// The event's group is applied alone, with no other group in parallel.
        const LOG_EVENT_MTS_ISOLATE_F = 0x0200;
    }
}

impl Flags for EventFlags {
    type Bits = u16;

    ghost exact = { ⊤ };

    ghost table = { event_flags };

    ghost set_of = { λ flags. flags.0 };

    fn flags<'a>() -> &'a [Flag<EventFlags>] {
        EventFlags::FLAGS
    }

    fn bits(&self) -> u16 {
        self.0
    }

    fn from_bits_retain(bits: u16) -> EventFlags {
        EventFlags(bits)
    }
}

/// The error for a number with a bit that no flag of an event has.
#[derive(Clone, Copy, Debug, PartialEq, Eq, Hash, Error)]
#[error("{0:#x} has a bit that no flag of an event has")]
pub struct UnknownEventFlags(pub u16);

impl TryFrom<u16> for EventFlags {
    type Error = UnknownEventFlags;

    ghost try_from_gives = { λ n r. r ≡ known_flags event_flags event_flags_of (λ k. record { 0 = k }) n };

    fn try_from(bits: u16) -> Result<EventFlags, UnknownEventFlags> {
        EventFlags::from_bits(bits).ok_or(UnknownEventFlags(bits))
    }
}

/// The flags that come before an event under semi-synchronous replication.
#[derive(Clone, Copy, Debug, PartialEq, Eq, Hash)]
pub struct SemiSyncFlags(u8);

bitflag_items! {
    impl SemiSyncFlags: u8 {
        /// The source waits until the replica acknowledges the event.
        const SEMI_SYNC_ACK_REQ = 0x01;
    }
}

impl Flags for SemiSyncFlags {
    type Bits = u8;

    ghost exact = { ⊤ };

    ghost table = { semi_sync_flags };

    ghost set_of = { λ flags. flags.0 };

    fn flags<'a>() -> &'a [Flag<SemiSyncFlags>] {
        SemiSyncFlags::FLAGS
    }

    fn bits(&self) -> u8 {
        self.0
    }

    fn from_bits_retain(bits: u8) -> SemiSyncFlags {
        SemiSyncFlags(bits)
    }
}

/// The error for a number with a bit that no flag of semi-synchronous replication has.
#[derive(Clone, Copy, Debug, PartialEq, Eq, Hash, Error)]
#[error("{0:#x} has a bit that no flag of semi-synchronous replication has")]
pub struct UnknownSemiSyncFlags(pub u8);

impl TryFrom<u8> for SemiSyncFlags {
    type Error = UnknownSemiSyncFlags;

    ghost try_from_gives = { λ n r. r ≡ known_flags semi_sync_flags semi_sync_flags_of
        (λ k. record { 0 = k }) n };

    fn try_from(bits: u8) -> Result<SemiSyncFlags, UnknownSemiSyncFlags> {
        SemiSyncFlags::from_bits(bits).ok_or(UnknownSemiSyncFlags(bits))
    }
}

/// The flags of a `GTID_EVENT`.
#[derive(Clone, Copy, Debug, PartialEq, Eq, Hash)]
pub struct GtidFlags(u8);

bitflag_items! {
    impl GtidFlags: u8 {
        /// The transaction may hold statements, besides changes of rows.
        const MAY_HAVE_SBR = 0x01;
    }
}

impl Flags for GtidFlags {
    type Bits = u8;

    ghost exact = { ⊤ };

    ghost table = { gtid_flags };

    ghost set_of = { λ flags. flags.0 };

    fn flags<'a>() -> &'a [Flag<GtidFlags>] {
        GtidFlags::FLAGS
    }

    fn bits(&self) -> u8 {
        self.0
    }

    fn from_bits_retain(bits: u8) -> GtidFlags {
        GtidFlags(bits)
    }
}

/// The error for a number with a bit that no flag of a GTID event has.
#[derive(Clone, Copy, Debug, PartialEq, Eq, Hash, Error)]
#[error("{0:#x} has a bit that no flag of a GTID event has")]
pub struct UnknownGtidFlags(pub u8);

impl TryFrom<u8> for GtidFlags {
    type Error = UnknownGtidFlags;

    ghost try_from_gives = { λ n r. r ≡ known_flags gtid_flags gtid_flags_of (λ k. record { 0 = k }) n };

    fn try_from(bits: u8) -> Result<GtidFlags, UnknownGtidFlags> {
        GtidFlags::from_bits(bits).ok_or(UnknownGtidFlags(bits))
    }
}

/// The flags of a rows event.
#[derive(Clone, Copy, Debug, PartialEq, Eq, Hash)]
pub struct RowsEventFlags(u16);

bitflag_items! {
    impl RowsEventFlags: u16 {
        /// The event is the last one of its statement.
        const STMT_END = 0x0001;
        /// Foreign keys are not checked.
        const NO_FOREIGN_KEY_CHECKS = 0x0002;
        /// Unique keys are not checked.
        const RELAXED_UNIQUE_CHECKS = 0x0004;
        /// Each row has a value for every column.
        const COMPLETE_ROWS = 0x0008;
    }
}

impl Flags for RowsEventFlags {
    type Bits = u16;

    ghost exact = { ⊤ };

    ghost table = { rows_event_flags };

    ghost set_of = { λ flags. flags.0 };

    fn flags<'a>() -> &'a [Flag<RowsEventFlags>] {
        RowsEventFlags::FLAGS
    }

    fn bits(&self) -> u16 {
        self.0
    }

    fn from_bits_retain(bits: u16) -> RowsEventFlags {
        RowsEventFlags(bits)
    }
}

/// The error for a number with a bit that no flag of a rows event has.
#[derive(Clone, Copy, Debug, PartialEq, Eq, Hash, Error)]
#[error("{0:#x} has a bit that no flag of a row event has")]
pub struct UnknownRowsEventFlags(pub u16);

impl TryFrom<u16> for RowsEventFlags {
    type Error = UnknownRowsEventFlags;

    ghost try_from_gives = { λ n r. r ≡ known_flags rows_event_flags rows_event_flags_of
        (λ k. record { 0 = k }) n };

    fn try_from(bits: u16) -> Result<RowsEventFlags, UnknownRowsEventFlags> {
        RowsEventFlags::from_bits(bits).ok_or(UnknownRowsEventFlags(bits))
    }
}

/// The flags of a `USER_VAR_EVENT`.
#[derive(Clone, Copy, Debug, PartialEq, Eq, Hash)]
pub struct UserVarFlags(u8);

bitflag_items! {
    impl UserVarFlags: u8 {
        /// The variable is an unsigned integer.
        const UNSIGNED = 0x01;
    }
}

impl Flags for UserVarFlags {
    type Bits = u8;

    ghost exact = { ⊤ };

    ghost table = { user_var_flags };

    ghost set_of = { λ flags. flags.0 };

    fn flags<'a>() -> &'a [Flag<UserVarFlags>] {
        UserVarFlags::FLAGS
    }

    fn bits(&self) -> u8 {
        self.0
    }

    fn from_bits_retain(bits: u8) -> UserVarFlags {
        UserVarFlags(bits)
    }
}

/// The error for a number with a bit that no flag of a user variable has.
#[derive(Clone, Copy, Debug, PartialEq, Eq, Hash, Error)]
#[error("{0:#x} has a bit that no flag of a user variable has")]
pub struct UnknownUserVarFlags(pub u8);

impl TryFrom<u8> for UserVarFlags {
    type Error = UnknownUserVarFlags;

    ghost try_from_gives = { λ n r. r ≡ known_flags user_var_flags user_var_flags_of
        (λ k. record { 0 = k }) n };

    fn try_from(bits: u8) -> Result<UserVarFlags, UnknownUserVarFlags> {
        UserVarFlags::from_bits(bits).ok_or(UnknownUserVarFlags(bits))
    }
}
