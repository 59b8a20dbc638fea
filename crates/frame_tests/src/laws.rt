ghost use Rattle.frame_tests.specs.Demands.{FramesAreTested};

/// A law: some types of slots fit the frame and the cells exactly where what is plain holds, and some types answer what is
/// asked of places.
pub fn frames_are_tested()
    ensures law { FramesAreTested }
{}
