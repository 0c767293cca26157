mod barrier;
mod cond;
mod mutex;
mod rwlock;
