mod growths;

use clap::error::{Error, ErrorKind};
use dml_command::{Line, LineRefusal, Request, command_of, request_of};
use dml_types::Settings;
use std::process::Abort;
use std::test::Fail;

const DEFAULTS: Settings = Settings {
    staging: 1_048_576,
    chunk: 4096,
    workers: 4,
};

fn is_answer(answer: &Result<Line<'_>, Error>, want: &Result<Line<'_>, ErrorKind>) -> bool {
    match (answer, want) {
        (Ok(line), Ok(wanted)) => line == wanted,
        (Err(error), Err(kind)) => error.kind() == *kind,
        _ => false,
    }
}

// What the words of the text are; it is cut at each space.
fn line_is<R: Abort + AllocGlobal>(
    rt: &R,
    text: &str,
    want: Result<Line<'_>, ErrorKind>,
) -> Result<(), Fail> {
    let mut words = Vec::new(rt.alloc());
    for word in text.split(' ') {
        words.push(word)?;
    }
    let answer = command_of(rt.alloc(), words.as_slice());
    assert!(rt; is_answer(&answer, &want), "{text}");
    Ok(())
}

#[test]
fn takes_workers(rt: HostRuntime) -> Result<(), Fail> {
    let workers = |workers| Settings {
        workers,
        ..DEFAULTS
    };
    for (text, settings) in [
        ("dmljob run", DEFAULTS),
        ("dmljob run --", DEFAULTS),
        ("dmljob run --workers 3", workers(3)),
        ("dmljob run --workers=3", workers(3)),
        ("dmljob run --workers +8", workers(8)),
        ("dmljob run --workers=+8", workers(8)),
        ("dmljob run --workers 0000000000000000000004", workers(4)),
        ("dmljob run --workers=-0", workers(0)),
        ("dmljob run --workers 4294967295", workers(4_294_967_295)),
    ] {
        line_is(&rt, text, Ok(Line::Run(settings)))?;
    }
    Ok(())
}

#[test]
fn takes_other_settings(rt: HostRuntime) -> Result<(), Fail> {
    for (text, settings) in [
        (
            "dmljob run --chunk 12",
            Settings {
                chunk: 12,
                ..DEFAULTS
            },
        ),
        (
            "dmljob run --arena 0",
            Settings {
                staging: 0,
                ..DEFAULTS
            },
        ),
        (
            "dmljob run --arena=16777217 --workers 17 --chunk 0",
            Settings {
                staging: 16_777_217,
                chunk: 0,
                workers: 17,
            },
        ),
    ] {
        line_is(&rt, text, Ok(Line::Run(settings)))?;
    }
    Ok(())
}

#[test]
fn takes_digits(rt: HostRuntime) -> Result<(), Fail> {
    for (text, hex) in [
        ("dmljob decode 0aF", "0aF"),
        ("dmljob decode -", "-"),
        ("dmljob decode -- -x", "-x"),
        ("dmljob decode ", ""),
    ] {
        line_is(&rt, text, Ok(Line::Decode(hex)))?;
    }
    Ok(())
}

#[test]
fn refuses_words(rt: HostRuntime) -> Result<(), Fail> {
    for (text, kind) in [
        ("dmljob run --workers=-1", ErrorKind::ValueValidation),
        ("dmljob run --workers x", ErrorKind::ValueValidation),
        ("dmljob run --workers 0x4", ErrorKind::ValueValidation),
        ("dmljob run --workers=", ErrorKind::ValueValidation),
        ("dmljob run --chunk 4294967296", ErrorKind::ValueValidation),
        (
            "dmljob run --chunk 12 --workers x",
            ErrorKind::ValueValidation,
        ),
        ("dmljob run --arena", ErrorKind::InvalidValue),
        (
            "dmljob run --chunk 8 --chunk 8",
            ErrorKind::ArgumentConflict,
        ),
        ("dmljob run --work 3", ErrorKind::UnknownArgument),
        ("dmljob run --workers -0", ErrorKind::UnknownArgument),
        ("dmljob run extra", ErrorKind::UnknownArgument),
        ("dmljob run -- extra", ErrorKind::UnknownArgument),
        ("dmljob -- run", ErrorKind::UnknownArgument),
        ("dmljob --workers 3 run", ErrorKind::UnknownArgument),
        ("dmljob --version", ErrorKind::UnknownArgument),
        ("dmljob -V", ErrorKind::UnknownArgument),
        ("dmljob decode 00 11", ErrorKind::UnknownArgument),
        ("dmljob decode -x", ErrorKind::UnknownArgument),
        ("dmljob decode", ErrorKind::MissingRequiredArgument),
        ("dmljob", ErrorKind::MissingSubcommand),
        ("dmljob nope", ErrorKind::InvalidSubcommand),
        ("dmljob help nope", ErrorKind::InvalidSubcommand),
    ] {
        line_is(&rt, text, Err(kind))?;
    }
    Ok(())
}

#[test]
fn shows_help(rt: HostRuntime) -> Result<(), Fail> {
    for text in [
        "dmljob help",
        "dmljob help run",
        "dmljob --help",
        "dmljob -h",
        "dmljob run --help",
        "dmljob decode -h",
    ] {
        line_is(&rt, text, Err(ErrorKind::DisplayHelp))?;
    }
    Ok(())
}

#[test]
fn judges_settings(rt: HostRuntime) {
    for settings in [
        Settings {
            chunk: 12,
            ..DEFAULTS
        },
        Settings {
            chunk: 0,
            ..DEFAULTS
        },
        Settings {
            chunk: 1_048_584,
            ..DEFAULTS
        },
        Settings {
            workers: 0,
            ..DEFAULTS
        },
        Settings {
            workers: 17,
            ..DEFAULTS
        },
        Settings {
            staging: 16_777_217,
            ..DEFAULTS
        },
    ] {
        let judged = request_of(Line::Run(settings));
        assert!(rt; matches!(&judged, Err(LineRefusal::Settings)));
    }
    let judged = request_of(Line::Run(DEFAULTS));
    assert!(rt; matches!(&judged, Ok(Request::Run(settings)) if *settings == DEFAULTS));
}

#[test]
fn judges_digits(rt: HostRuntime) -> Result<(), Fail> {
    let digits = "0123456789abcdefABCDEF0000000000";
    let front = format!(in rt.alloc(); "{digits}{digits}{digits}")?;
    let whole = format!(in rt.alloc(); "{front}{digits}")?;
    let short = format!(in rt.alloc(); "{front}0123456789abcdefABCDEF000000000")?;
    let long = format!(in rt.alloc(); "{whole}00")?;
    let other = format!(in rt.alloc(); "{front}0123456789abcdefABCDEF000000000g")?;
    for hex in ["", short.as_str(), long.as_str(), other.as_str()] {
        let judged = request_of(Line::Decode(hex));
        assert!(rt; matches!(&judged, Err(LineRefusal::NotHex)), "{hex}");
    }
    let Ok(Request::Decode(bytes)) = request_of(Line::Decode(whole.as_str())) else {
        return Err("a descriptor was refused".into());
    };
    assert_eq!(rt; bytes[0], 0x01);
    assert_eq!(rt; bytes[8], 0xab);
    assert_eq!(rt; bytes[63], 0);
    Ok(())
}

static WORDS: [&str; 4] = ["dmljob", "run", "--workers=3", "--chunk=8"];

static UNKNOWN: [&str; 3] = ["dmljob", "run", "extra"];

#[test]
fn refused_command_of(rt: HostRuntime) {
    match command_of(rt.alloc(), WORDS.as_slice()) {
        Ok(line) => {
            let settings = Settings {
                staging: 1_048_576,
                chunk: 8,
                workers: 3,
            };
            assert!(rt; line == Line::Run(settings));
        }
        Err(error) => assert!(rt; error.kind() == ErrorKind::OutOfMemory),
    }
    match command_of(rt.alloc(), UNKNOWN.as_slice()) {
        Ok(_) => assert!(rt; false),
        Err(error) => {
            let kind = error.kind();
            assert!(rt; kind == ErrorKind::UnknownArgument || kind == ErrorKind::OutOfMemory);
        }
    }
}
