use pt_types::{Call, Deadline, MutexKind, Name};

mod growth;
mod play;
mod rows;
mod seals;
mod seen;
mod sessions;
mod threads;

// The word of a call on a row's one object. Its deadline, if it has one, is at five seconds.
#[derive(Clone, Copy)]
enum Word {
    MutexInit,
    Lock,
    Unlock,
    RwlockInit,
    Rdlock,
    Timedrdlock,
    Timedwrlock,
}

fn call(word: Word) -> Option<Call> {
    let name = Name::new(b"m")?;
    let deadline = Deadline::new(5, 0)?;
    Some(match word {
        Word::MutexInit => Call::MutexInit(name, MutexKind::Normal, false),
        Word::Lock => Call::Lock(name),
        Word::Unlock => Call::Unlock(name),
        Word::RwlockInit => Call::RwlockInit(name),
        Word::Rdlock => Call::Rdlock(name),
        Word::Timedrdlock => Call::Timedrdlock(name, deadline),
        Word::Timedwrlock => Call::Timedwrlock(name, deadline),
    })
}
