//! What a run answers.
use sc_actor::Journal;
use sc_base::Sequence;
use sc_mail::Mail;
use sc_scenario::ReportLine;
use sc_words::OrderLine;
use sc_world::Party;

/// A text to be printed, and the journal and the parties that it is about.
#[derive(Drop)]
pub struct Text {
    pub lines: Sequence<ReportLine>,
    pub journal: Option<Journal<Mail, OrderLine>>,
    pub parties: Sequence<Party>,
}

/// How a run ended: its status, the journal if the text begun was about one, and then the nodes and
/// clients as the run left them.
///
/// The status is 0 for a run that ended with no line unsettled, and for an audit or an explanation
/// of rows that are a lawful journal; 2 for words outside the grammar, 3 for an input that is no
/// scenario, or to an audit or an explanation no stored journal, 4 for a read error, 5 for a write
/// error, 6 for a run with a line unsettled, 7 for a journal that is full, 8 for out of memory, and
/// 9 for an audit or an explanation of rows that are no lawful journal of the scenario.
#[derive(Drop)]
pub struct Done {
    pub status: u8,
    pub journal: Option<Journal<Mail, OrderLine>>,
    pub parties: Sequence<Party>,
}
