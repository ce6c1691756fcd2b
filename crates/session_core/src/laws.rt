//! What follows for every script. A call gives its caller the law, and does nothing when it runs.

ghost use Rattle.session_core.specs.Laws.{OneEditorIsNeverStale, UnclashedIsCommitted};
ghost use Rattle.session_core.specs.States.{CommandsLeadToStates};

use grid_core::Profile;

/// A script of one editor has no stale answer.
pub fn one_editor_is_never_stale(profile: &Profile)
    ensures { OneEditorIsNeverStale profile.now }
{}

/// A prepared change that shares no tile with a later one is committed, however old its base is,
/// unless the drawing is full.
pub fn unclashed_is_committed(profile: &Profile)
    ensures { UnclashedIsCommitted profile.now }
{}

/// Whatever the commands, numbers stay within their limits: an editor holds a version that there is,
/// a prepared change is based on one, a serial is at most 65,535, the history has at most 262,144
/// changes, and the live list after it passes no limit.
pub fn commands_lead_to_states(profile: &Profile)
    ensures { CommandsLeadToStates profile.now }
{}
