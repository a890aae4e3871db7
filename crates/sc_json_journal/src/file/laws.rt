//! Laws of stored journals.
ghost use Rattle.sc_json_journal.specs.file.Laws.{FilesHaveOneVerdict, FirstBytesDecideErrors, FirstBytesDecideFiles, PrintedFilesAreFiles, ScenariosAreShort};

use sc_json_text::row_texts_are_lines;

/// Shows that the file that is printed of a scenario's bytes and rows is read as the scenario and
/// the rows, if it is within the limit.
pub fn printed_files_are_files()
    ensures { PrintedFilesAreFiles }
{
    row_texts_are_lines();
}

/// Shows that an input is a file, or bad at a line for a reason, exactly where its first bytes are:
/// one more than the most that a file may have.
pub fn first_file_bytes_decide()
    ensures files { FirstBytesDecideFiles }
    ensures errors { FirstBytesDecideErrors }
{}

/// Shows that a file has one scenario and one list of texts of rows, and one list of rows where no
/// two rows have the same text; that a file is not bad too; and that a bad file has one bad line
/// and one reason.
pub fn files_have_one_verdict()
    ensures { FilesHaveOneVerdict }
{
    row_texts_are_lines();
}

/// Shows that a text that is a scenario has at most as many bytes as a text may have.
pub fn scenarios_are_short()
    ensures { ScenariosAreShort }
{}
