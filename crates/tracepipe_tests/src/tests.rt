//! Who meets over a socket, what each of them is asked, and what each comes to.
mod runs;
mod scene;
mod strangers;
