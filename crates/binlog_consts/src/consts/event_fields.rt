//! Numbers in the bodies of events: the handling of duplicates, incidents, and integer variables.

ghost use Rattle.std.specs.Prelude.{◌≡◌, Ok};
ghost use Rattle.binlog_base.specs.Tables.{from_table};
ghost use Rattle.binlog_consts.specs.Constants.{load_duplicate_handlings, incident_types, intvar_event_types};

use thiserror::Error;

/// What LOAD DATA does with a row whose key is there already.
#[allow(non_camel_case_types)]
#[derive(Clone, Copy, Debug, PartialEq, Eq, Hash)]
pub enum LoadDuplicateHandling {
    /// The statement fails.
    LOAD_DUP_ERROR = 0,
    /// The new row is skipped.
    LOAD_DUP_IGNORE = 1,
    /// The new row replaces the old one.
    LOAD_DUP_REPLACE = 2,
}

/// The error for a number that no handling of duplicates has.
#[derive(Clone, Copy, Debug, PartialEq, Eq, Hash, Error)]
#[error("no handling of duplicates has number {0}")]
pub struct UnknownDuplicateHandling(pub u8);

impl TryFrom<u8> for LoadDuplicateHandling {
    type Error = UnknownDuplicateHandling;

    ghost try_from_gives = { λ n r. r ≡ from_table load_duplicate_handlings (λ k. record { 0 = k }) n };

    fn try_from(number: u8) -> Result<LoadDuplicateHandling, UnknownDuplicateHandling> {
        match number {
            0 => Ok(LoadDuplicateHandling::LOAD_DUP_ERROR),
            1 => Ok(LoadDuplicateHandling::LOAD_DUP_IGNORE),
            2 => Ok(LoadDuplicateHandling::LOAD_DUP_REPLACE),
            _ => Err(UnknownDuplicateHandling(number)),
        }
    }
}

/// Converts a handling to its number, which `try_from` converts back.
impl From<LoadDuplicateHandling> for u8 {
    ghost from_gives = { λ h n. from_table load_duplicate_handlings (λ k. k) n ≡ Ok h };

    fn from(handling: LoadDuplicateHandling) -> u8 {
        handling as u8
    }
}

/// Converts the error to the number that was refused.
impl From<UnknownDuplicateHandling> for u8 {
    ghost from_gives = { λ e n. n ≡ e.0 };

    fn from(error: UnknownDuplicateHandling) -> u8 {
        error.0
    }
}

/// What an incident event reports.
#[allow(non_camel_case_types)]
#[derive(Clone, Copy, Debug, PartialEq, Eq, Hash)]
pub enum IncidentType {
    /// Nothing has happened.
    INCIDENT_NONE = 0,
    /// Events may have been lost from the log.
    INCIDENT_LOST_EVENTS = 1,
}

/// The error for a number that no incident has.
#[derive(Clone, Copy, Debug, PartialEq, Eq, Hash, Error)]
#[error("no incident has number {0}")]
pub struct UnknownIncidentType(pub u16);

impl TryFrom<u16> for IncidentType {
    type Error = UnknownIncidentType;

    ghost try_from_gives = { λ n r. r ≡ from_table incident_types (λ k. record { 0 = k }) n };

    fn try_from(number: u16) -> Result<IncidentType, UnknownIncidentType> {
        match number {
            0 => Ok(IncidentType::INCIDENT_NONE),
            1 => Ok(IncidentType::INCIDENT_LOST_EVENTS),
            _ => Err(UnknownIncidentType(number)),
        }
    }
}

/// Converts an incident to its number, which `try_from` converts back.
impl From<IncidentType> for u16 {
    ghost from_gives = { λ t n. from_table incident_types (λ k. k) n ≡ Ok t };

    fn from(incident: IncidentType) -> u16 {
        incident as u16
    }
}

/// Converts the error to the number that was refused.
impl From<UnknownIncidentType> for u16 {
    ghost from_gives = { λ e n. n ≡ e.0 };

    fn from(error: UnknownIncidentType) -> u16 {
        error.0
    }
}

/// What the number in an `INTVAR_EVENT` is for.
#[allow(non_camel_case_types)]
#[derive(Clone, Copy, Debug, PartialEq, Eq, Hash)]
pub enum IntvarEventType {
    /// Invalid: no event is written with it.
    INVALID_INT_EVENT = 0,
    /// It is what `LAST_INSERT_ID()` returns in the next statement.
    LAST_INSERT_ID_EVENT = 1,
    /// It is what an `AUTO_INCREMENT` column gets in the next statement.
    INSERT_ID_EVENT = 2,
}

/// The error for a number that no kind of integer variable has.
#[derive(Clone, Copy, Debug, PartialEq, Eq, Hash, Error)]
#[error("no kind of integer variable has number {0}")]
pub struct UnknownIntvarEventType(pub u8);

impl TryFrom<u8> for IntvarEventType {
    type Error = UnknownIntvarEventType;

    ghost try_from_gives = { λ n r. r ≡ from_table intvar_event_types (λ k. record { 0 = k }) n };

    fn try_from(number: u8) -> Result<IntvarEventType, UnknownIntvarEventType> {
        match number {
            0 => Ok(IntvarEventType::INVALID_INT_EVENT),
            1 => Ok(IntvarEventType::LAST_INSERT_ID_EVENT),
            2 => Ok(IntvarEventType::INSERT_ID_EVENT),
            _ => Err(UnknownIntvarEventType(number)),
        }
    }
}

/// Converts a kind to its number, which `try_from` converts back.
impl From<IntvarEventType> for u8 {
    ghost from_gives = { λ t n. from_table intvar_event_types (λ k. k) n ≡ Ok t };

    fn from(kind: IntvarEventType) -> u8 {
        kind as u8
    }
}

/// Converts the error to the number that was refused.
impl From<UnknownIntvarEventType> for u8 {
    ghost from_gives = { λ e n. n ≡ e.0 };

    fn from(error: UnknownIntvarEventType) -> u8 {
        error.0
    }
}
