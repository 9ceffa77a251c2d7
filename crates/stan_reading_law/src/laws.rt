//! Laws of readings: each is the contract of a function that does nothing.

ghost use Rattle.stan_reading_law.specs.Laws.{OneReading, OneReadings, NoFileIsWithoutAReading, NoFilesAreWithoutReadings};

/// A file has one reading.
pub fn one_reading()
    ensures { OneReading }
{}

/// Files have one list of readings.
pub fn one_readings()
    ensures { OneReadings }
{}

/// No file is without a reading, whatever its bytes.
pub fn no_file_is_without_a_reading()
    ensures { NoFileIsWithoutAReading }
{}

/// No files are without a list of readings.
pub fn no_files_are_without_readings()
    ensures { NoFilesAreWithoutReadings }
{}
