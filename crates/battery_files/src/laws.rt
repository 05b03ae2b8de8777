//! Laws of battery files. The functions do nothing: the contract of each is a law.

ghost use Rattle.battery_files.specs.Laws.{ClocksComeBack, FilesComeBack, RamComesBack};

/// A file for a cartridge without clock, of half bytes for MBC2, is written again as it was taken.
pub fn a_file_of_ram_comes_back()
    ensures { RamComesBack }
{}

/// A file for a cartridge with a clock, whose registers are in their ranges and whose time is 0, is written again as it was taken.
pub fn a_file_with_clocks_comes_back()
    ensures { ClocksComeBack }
{}

/// The file of a machine is as long as its cartridge asks for, and is written again as it was taken.
pub fn the_file_of_a_machine_comes_back()
    ensures { FilesComeBack }
{}
