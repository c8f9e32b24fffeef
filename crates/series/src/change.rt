// Laws only: how far L moves when its fraction does, and products and differences of exact numbers. No code.
