//! A law of the definitions, which is the contract of a function that does nothing.
ghost use Rattle.tm_ground.specs.OneWorld.{FilesHaveOneWorld};

/// The world of a file is the only one: its rows and their numbers, the types of its fields and its
/// questions are a function of the file.
pub fn files_have_one_world()
    ensures { FilesHaveOneWorld }
{}
