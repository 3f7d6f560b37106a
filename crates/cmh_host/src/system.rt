//! What a running site needs of the system.

use std::net::{Net, TcpListener, TcpStream};
use std::sync::Wait;
use std::thread::Threads;
use std::time::Clock;

/// Threads that wait, a clock, and sockets. A runtime that has them all is one.
pub trait System: Wait
    + Threads
    + Clock
    + Net<Listener = TcpListener, Stream = TcpStream>
    + Copy
    + Drop {}

impl<R> System for R
where
    R: Wait + Threads + Clock + Net<Listener = TcpListener, Stream = TcpStream> + Copy + Drop,
{}
