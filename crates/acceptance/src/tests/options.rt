//! The arguments of the command line.

use super::DAY;
use auction_terms::Config;
use clap::error::ErrorKind;
use settings::{ArgumentsFault, FloorForm, Form, JournalFile, Listing, Settings, Task, settings};
use std::alloc::Global;

/// Whether these arguments give these settings.
fn gives(alloc: Global, arguments: &[&str], wanted: Settings<'_>) -> bool {
    match settings(alloc, arguments) {
        Ok(found) => found == wanted,
        Err(_) => false,
    }
}

/// The name of the fault by which these arguments are refused; of arguments that are taken there is none.
fn fault_of(alloc: Global, arguments: &[&str]) -> Option<&'static str> {
    match settings(alloc, arguments) {
        Ok(_) => None,
        Err(ArgumentsFault::Parse(_)) => Some("Parse"),
        Err(ArgumentsFault::AuditNotAlone) => Some("AuditNotAlone"),
        Err(ArgumentsFault::LiveNotAlone) => Some("LiveNotAlone"),
        Err(ArgumentsFault::ResultsWithoutAudit) => Some("ResultsWithoutAudit"),
        Err(ArgumentsFault::WithoutLive) => Some("WithoutLive"),
        Err(ArgumentsFault::SyncWithoutJournal) => Some("SyncWithoutJournal"),
    }
}

/// The settings of a day whose options are left out, for this task.
const fn settings_for(task: Task) -> Settings<'static> {
    Settings {
        config: DAY,
        members: 4,
        task,
        journal: None,
    }
}

#[test]
fn without_arguments_each_option_has_its_default(rt: HostRuntime) {
    let wanted = settings_for(Task::Run(Form::Lines));
    assert!(rt; gives(rt.alloc(), &["callboard"], wanted));
}

#[test]
fn each_option_is_read(rt: HostRuntime) {
    let arguments = [
        "callboard",
        "--low",
        "5",
        "--high=6",
        "--reference",
        "1000000",
        "--members=64",
        "--open",
        "65536",
        "--calls",
        "1048576",
        "--range=0",
        "--floor",
        "--history",
        "--print=journal",
    ];
    let wanted = Settings {
        config: Config {
            low: 5,
            high: 6,
            reference: 1_000_000,
            max_open: 65_536,
            max_calls: 1_048_576,
            range: Some(0),
        },
        members: 64,
        task: Task::Floor(FloorForm::Listing(Listing::Journal)),
        journal: None,
    };
    assert!(rt; gives(rt.alloc(), arguments.as_slice(), wanted));
}

#[test]
fn other_arguments_are_refused(rt: HostRuntime) {
    let bad = [
        ["--low", "0"],
        ["--high", "1000001"],
        ["--reference", "x"],
        ["--members", "65"],
        ["--open", "65537"],
        ["--calls", "1048577"],
        ["--range", "1000001"],
        ["--floor", "x"],
        ["--audit", "x"],
        ["--live", "x"],
        ["--print", "text"],
        ["--nothing", "1"],
    ];
    for arguments in bad.as_slice() {
        assert!(rt; settings(rt.alloc(), &["callboard", arguments[0], arguments[1]]).is_err());
    }
}

#[test]
fn help_is_an_error_of_its_own(rt: HostRuntime) {
    let Err(ArgumentsFault::Parse(error)) = settings(rt.alloc(), &["callboard", "--help"]) else {
        assert!(rt; false);
        return;
    };
    assert!(rt; error.kind() == ErrorKind::DisplayHelp);
}

#[test]
fn an_audit_stands_alone(rt: HostRuntime) {
    let wanted = settings_for(Task::Audit { results: false });
    assert!(rt; gives(rt.alloc(), &["callboard", "--audit"], wanted));
    for other in ["--floor", "--history", "--print=lines"] {
        let fault = fault_of(rt.alloc(), &["callboard", "--audit", other]);
        assert!(rt; fault == Some("AuditNotAlone"), "{other}");
    }
}

#[test]
fn results_go_with_an_audit(rt: HostRuntime) {
    let wanted = settings_for(Task::Audit { results: true });
    assert!(rt; gives(rt.alloc(), &["callboard", "--audit", "--results"], wanted));
    for other in ["--floor", "--history", "--live", "--print=lines"] {
        let fault = fault_of(rt.alloc(), &["callboard", "--results", other]);
        assert!(rt; fault == Some("ResultsWithoutAudit"), "{other}");
    }
}

#[test]
fn answers_as_records_come_stand_alone(rt: HostRuntime) {
    let wanted = settings_for(Task::Live { reserve: 16 });
    let none = settings_for(Task::Live { reserve: 0 });
    assert!(rt; gives(rt.alloc(), &["callboard", "--live"], wanted));
    assert!(rt;
        gives(
            rt.alloc(),
            &["callboard", "--live", "--print=lines"],
            wanted
        )
    );
    assert!(rt; gives(rt.alloc(), &["callboard", "--reserve=0", "--live"], none));
    for other in ["--floor", "--history", "--audit", "--print=book"] {
        let fault = fault_of(rt.alloc(), &["callboard", "--live", other]);
        assert!(rt; fault == Some("LiveNotAlone"), "{other}");
    }
}

/// The settings of a session that is kept in a file, with a sync before each answer or without one.
const fn kept_session(is_synced: bool) -> Settings<'static> {
    Settings {
        journal: Some(JournalFile {
            name: "day.csv",
            is_synced,
        }),
        ..settings_for(Task::Live { reserve: 16 })
    }
}

#[test]
fn a_session_may_be_kept(rt: HostRuntime) {
    for (arguments, is_synced) in [
        (["--live", "--reserve=16", "--journal", "day.csv"], true),
        (["--journal=day.csv", "--live", "--sync", "none"], false),
    ] {
        let [a, b, c, d] = arguments;
        let wanted = kept_session(is_synced);
        assert!(rt; gives(rt.alloc(), &["callboard", a, b, c, d], wanted));
    }
    let fault = fault_of(rt.alloc(), &["callboard", "--journal", "day.csv"]);
    assert!(rt; fault == Some("WithoutLive"));
    let fault = fault_of(rt.alloc(), &["callboard", "--live", "--sync", "none"]);
    assert!(rt; fault == Some("SyncWithoutJournal"));
}
