// The action table, "the whole rule for the three session states" and those of receive sessions.
use crate::{Kind, Table};

impl Table {
    // The row of a session of which the user is asked.
    const ASKED: [Kind; 8] = [
        Kind::Withdraw,
        Kind::Withdraw,
        Kind::Withdraw,
        Kind::Withdraw,
        Kind::Withdraw,
        Kind::Withdraw,
        Kind::Cancel,
        Kind::Withdraw,
    ];

    // The action table: a row for each session state, a column for each action: send, receive, file,
    // data, end_data, finish, cancel, status.
    pub const ACTIONS: [[Kind; 8]; 7] = [
        [
            Kind::Ask,
            Kind::Receive,
            Kind::Ignore,
            Kind::Ignore,
            Kind::Ignore,
            Kind::Ignore,
            Kind::Ignore,
            Kind::Ignore,
        ],
        Table::ASKED,
        [
            Kind::Invalid,
            Kind::Invalid,
            Kind::File,
            Kind::Data,
            Kind::EndData,
            Kind::Finish,
            Kind::Cancel,
            Kind::Ignore,
        ],
        [
            Kind::Withdraw,
            Kind::Withdraw,
            Kind::Path,
            Kind::Withdraw,
            Kind::Withdraw,
            Kind::Withdraw,
            Kind::Cancel,
            Kind::Withdraw,
        ],
        Table::ASKED,
        [
            Kind::Invalid,
            Kind::Invalid,
            Kind::Ignore,
            Kind::Ignore,
            Kind::Ignore,
            Kind::Withdraw,
            Kind::Cancel,
            Kind::Ignore,
        ],
        [
            Kind::Invalid,
            Kind::Invalid,
            Kind::Request,
            Kind::Ignore,
            Kind::Ignore,
            Kind::Withdraw,
            Kind::Cancel,
            Kind::Ignore,
        ],
    ];
}
