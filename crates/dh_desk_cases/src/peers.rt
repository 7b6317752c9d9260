//! Peers of `letting serve`. Behind the lines of a life, a line `ask REQUEST -> STATUS BODY` is a request, with escapes,
//! and what its peer is answered: `-> nothing` where it gets no byte. A line `hold REQUEST` is one whose peer doesn't end its input. A line
//! `serve WORDS -> STATUS TEXT` sends the requests above it, one connection each, as soon as it is told the port, and compares the rest of
//! the text; it also tries the same port of 127.0.0.2, where nobody listens. `busy WORDS` names a port that is taken.

use crate::haste::serve_in_haste;
use crate::lives;
use crate::runs::{Deed, Follower, clear, compare_told, outcome, run_letting, run_told};
use dh_test_kit::{Tally, Unreadable, compare, parted, spelled};
use std::alloc::{AllocError, Global};
use std::io::{Read, Write};
use std::net::{Ipv4Addr, Shutdown, SocketAddr, SocketAddrV4, TcpListener, TcpStream};
use std::{io, str};

// A request, and the answer that is wanted.
#[derive(Drop)]
struct Ask {
    request: String,
    wanted: String,
    // Whether the peer ends its input.
    ends: bool,
}

impl Ask {
    fn new(alloc: Global, request: &str, wanted: &str, ends: bool) -> Result<Ask, Unreadable> {
        Ok(Ask {
            ends,
            request: spelled(alloc, request)?,
            wanted: spelled(alloc, wanted)?,
        })
    }
}

// The port that is told in such a line.
fn port_in(line: &[u8]) -> Option<u16> {
    let text = str::from_utf8(line).ok()?;
    text.strip_prefix("port ")?.trim_end().parse().ok()
}

fn connected(rt: &HostRuntime, port: u16, ask: &Ask) -> io::Result<TcpStream> {
    let address = SocketAddr::V4(SocketAddrV4::new(Ipv4Addr::LOCALHOST, port));
    let mut peer = TcpStream::connect(rt, address)?;
    peer.write_all(ask.request.as_bytes())?;
    if ask.ends {
        peer.shutdown(Shutdown::Write)?;
    }
    Ok(peer)
}

// Who listens at that port of another address than 127.0.0.1.
fn listener_elsewhere(rt: &HostRuntime, told: &[u8]) -> &'static str {
    let Some(port) = port_in(told) else {
        return "nobody";
    };
    let address = SocketAddr::V4(SocketAddrV4::new(Ipv4Addr::new(127, 0, 0, 2), port));
    match TcpStream::connect(rt, address) {
        Ok(_) => "somebody",
        Err(_) => "nobody",
    }
}

// A peer for each request, which it has sent.
fn peers_of(rt: &HostRuntime, told: &[u8], asks: &[Ask]) -> io::Result<Vec<TcpStream>> {
    let mut peers = Vec::new(rt.alloc());
    let Some(port) = port_in(told) else {
        return Ok(peers);
    };
    for ask in asks {
        peers.push(connected(rt, port, ask)?)?;
    }
    Ok(peers)
}

// What sends the requests once the port is told.
#[derive(Drop)]
struct Caller<'a> {
    rt: &'a HostRuntime,
    asks: &'a [Ask],
    peers: Vec<TcpStream>,
    elsewhere: &'static str,
}

// A writer that is told the port, and sends the requests.
fn new_caller<'a>(rt: &'a HostRuntime, asks: &'a [Ask]) -> Follower<Caller<'a>> {
    Follower {
        told: Vec::new(rt.alloc()),
        deed: Caller {
            rt,
            asks,
            peers: Vec::new(rt.alloc()),
            elsewhere: "not asked",
        },
    }
}

impl Deed for Caller<'_> {
    fn follow(&mut self, told: &[u8]) {
        if !self.peers.is_empty() || !told.ends_with(b"\n") {
            return;
        }
        if let Ok(peers) = peers_of(self.rt, told, self.asks) {
            self.peers = peers;
        }
        self.elsewhere = listener_elsewhere(self.rt, told);
    }
}

// What a peer was answered: the status and the body, or nothing.
fn answer_of(alloc: Global, peer: &mut TcpStream) -> Result<String, AllocError> {
    let mut bytes = Vec::new(alloc);
    let end = match peer.read_to_end(&mut bytes) {
        Ok(_) => "",
        Err(_) => " broken off",
    };
    let text = str::from_utf8(&bytes).unwrap_or("no text");
    let (head, body) = text.split_once("\r\n\r\n").unwrap_or((text, ""));
    match head.get(9..12) {
        Some(status) if body.is_empty() => format!(in alloc; "{status}{end}"),
        Some(status) => format!(in alloc; "{status} {body}{end}"),
        None => format!(in alloc; "nothing{end}"),
    }
}

// Compares what each peer was answered.
fn judge(
    rt: &HostRuntime,
    tally: &mut Tally,
    asks: &[Ask],
    peers: &mut [TcpStream],
) -> io::Result<()> {
    for (ask, peer) in asks.iter().zip(peers.iter_mut()) {
        let got = answer_of(rt.alloc(), peer)?;
        compare(
            rt,
            tally,
            ask.request.as_str(),
            got.as_str(),
            ask.wanted.as_str(),
        )?;
    }
    Ok(())
}

// Judges what the peers were answered, and gives what the caller was told, without the line of the port.
fn judged(
    rt: &HostRuntime,
    tally: &mut Tally,
    asks: &[Ask],
    caller: Follower<Caller>,
) -> io::Result<Vec<u8>> {
    let Follower { told, deed } = caller;
    let Caller {
        rt: _,
        asks: _,
        mut peers,
        elsewhere,
    } = deed;
    compare(rt, tally, "the port at 127.0.0.2", elsewhere, "nobody")?;
    judge(rt, tally, asks, &mut peers)?;
    let line = told.iter().position(|byte| *byte == b'\n');
    let begin = line.map_or(0, |at| at.saturating_add(1));
    Ok(Vec::from_slice(rt.alloc(), told.get(begin..).unwrap_or(&[]))?)
}

// What a run comes to whose peers send these requests.
fn served(rt: &HostRuntime, tally: &mut Tally, asks: &[Ask], words: &str) -> io::Result<String> {
    let mut caller = new_caller(rt, asks);
    let status = run_told(rt, words, &mut caller)?;
    let rest = judged(rt, tally, asks, caller)?;
    Ok(outcome(rt.alloc(), status.code(), &rest)?)
}

// What serving in haste comes to, whose peers send these requests.
fn hurried(rt: &HostRuntime, tally: &mut Tally, asks: &[Ask], count: &str) -> io::Result<String> {
    let mut caller = new_caller(rt, asks);
    let end = serve_in_haste(rt, count, &mut caller)?;
    let rest = judged(rt, tally, asks, caller)?;
    let text = str::from_utf8(&rest).unwrap_or("no text");
    Ok(format!(in rt.alloc(); "{end} {text}")?)
}

// What a run comes to whose port is taken.
fn refused(rt: &HostRuntime, words: &str) -> io::Result<String> {
    let listener = TcpListener::bind(rt, "127.0.0.1:0")?;
    let port = listener.local_addr()?.port();
    let words = format!(in rt.alloc(); "serve --port {port} {words}")?;
    run_letting(rt, words.as_str())
}

// Plays a line behind those above it, of which these requests were not sent yet.
fn play_line(
    rt: &HostRuntime,
    tally: &mut Tally,
    asks: &mut Vec<Ask>,
    line: &str,
) -> io::Result<()> {
    let (told, wanted) = parted(line);
    let (kind, words) = told.split_once(' ').unwrap_or((told, ""));
    let got = match kind {
        "ask" => return Ok(asks.push(Ask::new(rt.alloc(), words, wanted, true)?)?),
        "hold" => return Ok(asks.push(Ask::new(rt.alloc(), words, wanted, false)?)?),
        "busy" => refused(rt, words)?,
        "serve" => {
            let got = served(rt, tally, asks, words)?;
            asks.clear();
            got
        }
        "hurry" => {
            let got = hurried(rt, tally, asks, words)?;
            asks.clear();
            got
        }
        _ => return lives::play_line(rt, tally, &mut Vec::new(rt.alloc()), line),
    };
    compare_told(rt, tally, line, got.as_str())
}

/// Plays the lines, one after the other, on a path where nothing is.
pub fn play(rt: &HostRuntime, tally: &mut Tally, lines: &str) -> io::Result<()> {
    clear(rt);
    let mut asks = Vec::new(rt.alloc());
    for line in lines.lines() {
        play_line(rt, tally, &mut asks, line)?;
    }
    clear(rt);
    Ok(())
}
