//! Scripts of events, groups, focus, input devices and animations with the logs that a reference
//! implementation gives. There is no code here.
#![tactic(auto)]

ghost use Rattle.run_logs.specs.Reference.{ReferenceLogs, FirstReferenceLog};
ghost use Rattle.run_logs.specs.Reference.{DeviceLogs, CornerLogs, ScrollLogs, DragCornerLogs};
ghost use Rattle.run_logs.specs.Reference.{AnimationLogs, AnimationCornerLogs, SettingsLog};

/// Twelve scripts of a hundred lines, twelve more of input devices, and twelve at the corners of their rules
/// have the logs that a reference implementation gives. That follows from the definitions of the language, of a
/// step and of a run. They begin with lists for few handles, so that a log is quickly worked out; forty lines
/// begin from the first machine itself.
pub fn reference_logs()
    ensures logs { ReferenceLogs }
    ensures devices { DeviceLogs }
    ensures corners { CornerLogs }
    ensures first { FirstReferenceLog }
{}

/// Twelve scripts of a hundred lines with animations, ten at the corners of their rules, and a whole settings
/// screen with its frames have the logs that a reference implementation gives.
pub fn animation_logs()
    ensures animations { AnimationLogs }
    ensures corners { AnimationCornerLogs }
    ensures settings { SettingsLog }
{}

/// Twelve scripts of sixty lines in which scrollable objects are dragged, and three at the corners of the rules
/// of dragging, have the logs that a reference implementation gives.
pub fn scroll_logs()
    ensures logs { ScrollLogs }
    ensures corners { DragCornerLogs }
{}
